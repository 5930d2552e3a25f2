// What it takes for a session to be attached.
ghost use Rattle.std.specs.Prelude.{◌≡◌, false};
ghost use Rattle.kishu_host.specs.Host.{Only};
ghost use Rattle.kishu_objects.specs.Same.{Same};
ghost use Rattle.kishu_store.specs.Graph.{Graph};
ghost use Rattle.kishu_replay.specs.Replay.{replay};
ghost use Rattle.kishu_history.specs.Good.{IsGoodFileOf};
ghost use Rattle.kishu_session.specs.Attached.{IsAtEnd, IsAttached};
ghost use Rattle.kishu_session.specs.Lives.{state_of};

use crate::session::Session;
use kishu_host::Host;

/// A session is attached where no earlier call ended it, nothing is pending, its journal and its graph stand at
/// the end of a good file, with the tables that the file's records give, and the live state is the same as the
/// replay of the head. What else is said of an attached session follows from that: it counts the cells on the
/// path to the head, and the live state is the one that the head's table tells.
pub fn sessions_are_attached<H: Host>(session: &Session, host: &H)
    ensures attached { (g : Graph) → session.now.halted ≡ false
        → Only (H.state host.now).file (H.state host.now).may_leave
        → IsAtEnd session.now (H.state host.now) g → IsGoodFileOf (H.state host.now).file g
        → Same (state_of session.now.head.live) (replay g g.head.commit)
        → IsAttached session.now (H.state host.now) g }
{}
