ghost use Rattle.std.specs.Prelude.{◌≡◌, ◌≤◌, ◌+◌, ◌*◌, ◌++◌, length};
ghost use Rattle.planar_run.specs.Rounds.{AreFew};
ghost use Rattle.planar_run.specs.Text.{line_of, names_text, went_text};

use crate::reply::{REPLY_ROOM, Reply};
use arrangement::Went;

// A word and a number for each of these names, within the room that is there.
fn tell_names(reply: &mut Reply, word: &str, names: &[u32])
    requires word { length word.now ≤ 8 }
    requires room { length reply.old + 18 * length names.now ≤ REPLY_ROOM }
    ensures text { reply.new ≡ reply.old ++ names_text word.now names.now }
    ensures short { length reply.new ≤ length reply.old + 18 * length names.now }
{
    for name in names {
        reply.add_text(word);
        reply.add_number(*name);
    }
}

/// Ends the reply to an edit with who joined, left and was lost in it, within the room that is there. It takes no memory.
pub fn tell_went(reply: &mut Reply, went: &Went)
    requires few { AreFew went.now }
    requires room { length reply.old ≤ 100 }
    ensures { reply.new ≡ line_of (reply.old ++ went_text went.now) }
{
    tell_names(reply, " joined ", went.joined.as_slice());
    tell_names(reply, " left ", went.left.as_slice());
    tell_names(reply, " lost ", went.lost.as_slice());
    reply.add_text("\n");
}
