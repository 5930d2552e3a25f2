//! The words of the command line.
use kishu_serve::Status;
use std::{env, io};

/// The words behind the program's name.
///
/// `Usage`: a word isn't UTF-8, so it has no meaning. `NoMemory`: there is no memory for the words.
pub fn words_of(rt: &HostRuntime) -> Result<Vec<String>, Status> {
    let args = match env::args(rt) {
        Ok(args) => args,
        Err(error) if error.kind() == io::ErrorKind::OutOfMemory => return Err(Status::NoMemory),
        Err(_) => return Err(Status::Usage),
    };
    let mut words = Vec::new(rt.alloc());
    for word in args.skip(1) {
        if words.push(word).is_err() {
            return Err(Status::NoMemory);
        }
    }
    Ok(words)
}
