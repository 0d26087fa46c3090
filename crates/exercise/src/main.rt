// Reads a chain as text from standard input, and writes what happened. All the work is `text_exercise::exercise`.
// An input of more than 4,096 bytes is cut there, which changes nothing (the law `cut_input` in crates/text_exercise/proofs: no right
// input is so long), and the output holds every answer whole (the law `printout_fits` there).
#![tactic(auto)]

ghost use Rattle.std.specs.Prelude.{◌≤◌, length, IfOk};

use std::io::{self, Print, Read};

// The bytes of an input that are read, and of a printout that are written.
const INPUT: usize = 4096;

const OUTPUT: usize = 65536;

// Fills the buffer until the input ends; how many bytes that was. Of std's methods `read_exact` refuses an input that ends earlier,
// and those that read to its end want a heap.
fn read_full<R: Read>(input: &mut R, to: &mut [u8]) -> io::Result<usize>
    ensures { IfOk result (λ n. n ≤ length to.new) }
{
    let mut done = 0;
    while done < to.len() {
        let n = input.read(&mut to[done..])?;
        if n == 0 {
            break;
        }
        done += n;
    }
    Ok(done)
}

fn main(rt: HostRuntime) -> io::Result<()> {
    let mut input = [0u8; INPUT];
    let n = read_full(&mut rt.stdin(), &mut input)?;
    let mut output = [0u8; OUTPUT];
    let m = text_exercise::exercise(&input[..n], &mut output);
    rt.write_all(&output[..m])
}
