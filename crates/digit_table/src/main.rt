// The program: a list, the line `end` and one input a line from standard input; the table or the refusal to standard output. What it answers
// is `respond`'s, which is proved; this only reads and writes. One byte beyond the limit is read, so that 65,537 bytes are told from 65,536.
// No answer is longer than 65,547 bytes (`longest_answer` in the contract of `respond`), so the output has room for each. FORMAT 11.1, 11.13, 9.17
#![tactic(auto)]

ghost use Rattle.std.specs.Prelude.{◌≤◌, length, IfOk};

use program::respond;
use std::io;
use std::io::{ErrorKind, Print, Read};

// Reads until the buffer is full or the input ends, and says how many bytes were read. By hand: `read_to_end` asks for a heap, and `read_exact` refuses
// an input that ends early. The turns are counted, as every loop has to end and a reader may be interrupted again and again.
fn read_full<R: Read>(reader: &mut R, buffer: &mut [u8]) -> io::Result<usize>
    ensures { IfOk result (λ n. n ≤ length buffer.new) }
{
    let mut done = 0;
    for _ in 0..u64::MAX {
        if buffer.len() <= done {
            break;
        }
        match reader.read(&mut buffer[done..]) {
            Ok(0) => break,
            Ok(n) => done += n,
            Err(e) => {
                if e.kind() != ErrorKind::Interrupted {
                    return Err(e);
                }
            }
        }
    }
    Ok(done)
}

fn main(rt: HostRuntime) -> io::Result<()> {
    let mut input: [u8; 65537] = [0; 65537];
    let mut output: [u8; 65547] = [0; 65547];
    let read = read_full(&mut rt.stdin(), &mut input)?;
    let written = respond(&input[..read], &mut output);
    rt.stdout().write_all(&output[..written])
}
