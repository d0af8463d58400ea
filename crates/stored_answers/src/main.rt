// Stored runs of `respond`: P1 (FORMAT 12.1, 11.12), and each refusal that an input of the program can cause. The answers are printed one after
// another and compared with the stored ones. (Refusals 13 to 15 are a check's; 19 and 20 are the desk's; the program makes tables only.)
#![tactic(auto)]

use program::respond;
use std::io;
use std::io::Print;

fn print_answer(rt: &impl Print, input: &[u8]) -> io::Result<()> {
    let mut output: [u8; 256] = [0; 256];
    let written = respond(input, &mut output);
    rt.write_all(&output[..written])
}

// P1's nine lines; P4, whose statement is false; and a list without cells. FORMAT 11.8, 11.12, 12.4
fn made(rt: &impl Print) -> io::Result<()> {
    print_answer(rt, b"field\t31\nin\nrelu\t0\t2\t4\nend\n-3\n")?;
    print_answer(rt, b"field\t31\nin\nrelu\t0\t2\t4\nend\n8\n")?;
    print_answer(rt, b"field\t3\nend\n")?;
    Ok(())
}

// 1: over 65,536 bytes. 2: no last byte 10, no line `end`, or no list before it. FORMAT 11.2, 11.3, 11.5
fn refused_as_a_whole(rt: &impl Print) -> io::Result<()> {
    let long: [u8; 65537] = [10; 65537];
    print_answer(rt, &long)?;
    print_answer(rt, b"field\t31\nend")?;
    print_answer(rt, b"field\t31\nin\n")?;
    print_answer(rt, b"end\n")?;
    Ok(())
}

// 3 to 7 of a line of the list. FORMAT 10.3, 10.4, 10.5, 10.6, 10.7
fn refused_by_early_rules(rt: &impl Print) -> io::Result<()> {
    print_answer(rt, b"field\t31\nin\t5\nend\n")?;
    print_answer(rt, b"field\t31\nout\nend\n")?;
    print_answer(rt, b"field\t031\nend\n")?;
    print_answer(rt, b"in\nend\n")?;
    print_answer(rt, b"field\t31\nfield\t31\nend\n")?;
    print_answer(rt, b"field\t33\nend\n")?;
    print_answer(rt, b"field\t31\nin\nspan\t0\t1\t4\t0\nend\n")?;
    print_answer(rt, b"field\t31\nin\nspan\t0\t2\t32\t0\nend\n")?;
    print_answer(rt, b"field\t31\nsum\t16\nend\n")?;
    print_answer(rt, b"field\t31\nin\nrelu\t1\t2\t4\nend\n")?;
    Ok(())
}

// 8: 257 inputs. 9: 67 root lines of 62 cells each, after an input's cell. FORMAT 10.8, 10.9
fn refused_by_limits(rt: &impl Print) -> io::Result<()> {
    print_answer(
        rt,
        b"field\t31\nin\nin\nin\nin\nin\nin\nin\nin\nin\nin\nin\nin\nin\nin\nin\nin\nin\nin\nin\nin\nin\nin\nin\nin\nin\nin\nin\nin\nin\nin\nin\nin\nin\nin\nin\nin\nin\nin\nin\nin\nin\nin\nin\nin\nin\nin\nin\nin\nin\nin\nin\nin\nin\nin\nin\nin\nin\nin\nin\nin\nin\nin\nin\nin\nin\nin\nin\nin\nin\nin\nin\nin\nin\nin\nin\nin\nin\nin\nin\nin\nin\nin\nin\nin\nin\nin\nin\nin\nin\nin\nin\nin\nin\nin\nin\nin\nin\nin\nin\nin\nin\nin\nin\nin\nin\nin\nin\nin\nin\nin\nin\nin\nin\nin\nin\nin\nin\nin\nin\nin\nin\nin\nin\nin\nin\nin\nin\nin\nin\nin\nin\nin\nin\nin\nin\nin\nin\nin\nin\nin\nin\nin\nin\nin\nin\nin\nin\nin\nin\nin\nin\nin\nin\nin\nin\nin\nin\nin\nin\nin\nin\nin\nin\nin\nin\nin\nin\nin\nin\nin\nin\nin\nin\nin\nin\nin\nin\nin\nin\nin\nin\nin\nin\nin\nin\nin\nin\nin\nin\nin\nin\nin\nin\nin\nin\nin\nin\nin\nin\nin\nin\nin\nin\nin\nin\nin\nin\nin\nin\nin\nin\nin\nin\nin\nin\nin\nin\nin\nin\nin\nin\nin\nin\nin\nin\nin\nin\nin\nin\nin\nin\nin\nin\nin\nin\nin\nin\nin\nin\nin\nin\nin\nin\nin\nin\nin\nin\nin\nin\nin\nin\nin\nin\nin\nin\nin\nin\nend\n",
    )?;
    print_answer(
        rt,
        b"field\t2147483647\nin\nroot\t0\t2\t15\nroot\t0\t2\t15\nroot\t0\t2\t15\nroot\t0\t2\t15\nroot\t0\t2\t15\nroot\t0\t2\t15\nroot\t0\t2\t15\nroot\t0\t2\t15\nroot\t0\t2\t15\nroot\t0\t2\t15\nroot\t0\t2\t15\nroot\t0\t2\t15\nroot\t0\t2\t15\nroot\t0\t2\t15\nroot\t0\t2\t15\nroot\t0\t2\t15\nroot\t0\t2\t15\nroot\t0\t2\t15\nroot\t0\t2\t15\nroot\t0\t2\t15\nroot\t0\t2\t15\nroot\t0\t2\t15\nroot\t0\t2\t15\nroot\t0\t2\t15\nroot\t0\t2\t15\nroot\t0\t2\t15\nroot\t0\t2\t15\nroot\t0\t2\t15\nroot\t0\t2\t15\nroot\t0\t2\t15\nroot\t0\t2\t15\nroot\t0\t2\t15\nroot\t0\t2\t15\nroot\t0\t2\t15\nroot\t0\t2\t15\nroot\t0\t2\t15\nroot\t0\t2\t15\nroot\t0\t2\t15\nroot\t0\t2\t15\nroot\t0\t2\t15\nroot\t0\t2\t15\nroot\t0\t2\t15\nroot\t0\t2\t15\nroot\t0\t2\t15\nroot\t0\t2\t15\nroot\t0\t2\t15\nroot\t0\t2\t15\nroot\t0\t2\t15\nroot\t0\t2\t15\nroot\t0\t2\t15\nroot\t0\t2\t15\nroot\t0\t2\t15\nroot\t0\t2\t15\nroot\t0\t2\t15\nroot\t0\t2\t15\nroot\t0\t2\t15\nroot\t0\t2\t15\nroot\t0\t2\t15\nroot\t0\t2\t15\nroot\t0\t2\t15\nroot\t0\t2\t15\nroot\t0\t2\t15\nroot\t0\t2\t15\nroot\t0\t2\t15\nroot\t0\t2\t15\nroot\t0\t2\t15\nroot\t0\t2\t15\nend\n",
    )?;
    Ok(())
}

// 10 to 12 of a line of the list. FORMAT 10.10, 10.11, 10.12
fn refused_by_late_rules(rt: &impl Print) -> io::Result<()> {
    print_answer(rt, b"field\t31\nin\nroot\t0\t2\t1\nend\n")?;
    print_answer(rt, b"field\t31\nin\nspan\t0\t2\t4\t1\nend\n")?;
    print_answer(rt, b"field\t101\nin\nspan\t0\t2\t5\t0\nsum\t0\t2\t0\nend\n")?;
    print_answer(
        rt,
        b"field\t31\nin\nspan\t0\t2\t2\t0\nspan\t0\t2\t2\t8\nend\n",
    )?;
    Ok(())
}

// 3 of an input line, at its place in the whole input; 16, 17 and 18. FORMAT 11.6, 11.7
fn refused_by_inputs(rt: &impl Print) -> io::Result<()> {
    print_answer(rt, b"field\t31\nin\nend\n1\n+1\n")?;
    print_answer(rt, b"field\t31\nin\nend\n")?;
    print_answer(rt, b"field\t31\nin\nend\n1\n2\n")?;
    print_answer(rt, b"field\t31\nin\nend\n16\n")?;
    print_answer(rt, b"field\t31\nin\nspan\t0\t2\t4\t0\nend\n-1\n")?;
    Ok(())
}

fn main(rt: HostRuntime) -> io::Result<()> {
    made(&rt)?;
    refused_as_a_whole(&rt)?;
    refused_by_early_rules(&rt)?;
    refused_by_limits(&rt)?;
    refused_by_late_rules(&rt)?;
    refused_by_inputs(&rt)
}
