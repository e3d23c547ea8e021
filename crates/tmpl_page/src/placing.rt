//! Where the bytes of an answer are put.

ghost use Rattle.std.specs.Prelude.{◌≡◌, ◌≤◌, ◌+◌, ◌++◌, drop, length};
ghost use Rattle.top_status.specs.Status.{code_of};
ghost use Rattle.tmpl_page.specs.Answered.{IsPlaced};

use crate::told::Told;
use top_answer::Answer;

/// The code where a word is no text.
const NO_WORDS: u8 = 9;

// Puts bytes at the beginning of room that is large enough.
fn put(room: &mut [u8], bytes: &[u8])
    requires { length bytes.now ≤ length room.old }
    ensures { room.new ≡ bytes.now ++ drop (length bytes.now) room.old }
{
    let (front, _) = room.split_at_mut(bytes.len());
    front.copy_from_slice(bytes);
}

// Puts the output and behind it the message, where there is room for both.
fn put_both(room: &mut [u8], output: &[u8], message: &[u8])
    ensures { IsPlaced output.now message.now room.old room.new }
{
    if output.len() + message.len() <= room.len() {
        let (front, behind) = room.split_at_mut(output.len());
        front.copy_from_slice(output);
        put(behind, message);
    }
}

// Puts an answer, tells how long it is, and gives its code.
pub(crate) fn place(answer: &Answer, room: &mut [u8], told: &mut Told) -> u8
    ensures code { result ≡ code_of answer.now.status }
    ensures output { told.new.output ≡ length answer.now.bytes.items }
    ensures message { told.new.message ≡ length answer.now.message }
    ensures placed { IsPlaced answer.now.bytes.items answer.now.message room.old room.new }
{
    let message = answer.message.bytes();
    put_both(room, &answer.bytes, message);
    told.output = answer.bytes.len();
    told.message = message.len();
    answer.status.code()
}

// Tells that nothing is put, since a word is no text.
pub(crate) fn place_nothing(told: &mut Told) -> u8
    ensures code { result ≡ 9 }
    ensures output { told.new.output ≡ 0 }
    ensures message { told.new.message ≡ 0 }
{
    told.output = 0;
    told.message = 0;
    NO_WORDS
}
