// Input that is read into what is lent.
#![tactic(auto)]

ghost use Rattle.std.specs.Prelude.{◌≡◌, ◌≤◌, length, IfOk};

use std::io;
use std::io::Read;

// Reads until what is lent is full, or to the end of the input. How many bytes that is fits what is lent, which keeps its length, after a failed read too.
// (A `while`: no function of the library reads so into what is lent. `std::io::copy` over `take` promises nothing of the length after an error, and copies
// through a buffer of its own.)
pub fn read_full<R: Read>(mut source: R, into: &mut [u8]) -> io::Result<usize>
where
    R: Drop,
    ensures fits { IfOk result (λ bytes. bytes ≤ length into.old) }
    ensures kept { length into.new ≡ length into.old }
{
    let mut done = 0;
    while done < into.len() {
        let more = source.read(&mut into[done..])?;
        if more == 0 {
            break;
        }
        done += more;
    }
    Ok(done)
}
