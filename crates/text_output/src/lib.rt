// What is printed of a call (`print`), and of an input with a wrong line (`print_refused`). A line goes to the output as far as it fits.
#![tactic(auto)]

ghost use Rattle.std.specs.Prelude.{[], ◌∷◌, ◌+◌, ◌*◌, ◌≤◌, length};
ghost use Rattle.model.specs.Answer.{answer_size};
ghost use Rattle.text_digits.specs.Digits.{decimal, hex};
ghost use Rattle.text_digits.specs.Output.{Adds, Wrote};
ghost use Rattle.text_output.specs.Printout.{line, refused_line, status_lines, count_lines, command_lines, printout_of};

use model::{answer, sizes};
use text_digits::Output;

// A line with a number.
fn number_line(out: &mut Output, key: &[u8], n: usize)
    ensures { Wrote out.old (line key.now (decimal n)) out.new }
{
    out.text(key);
    out.decimal(n);
    out.text(b"\n");
}

// A line with bytes.
fn bytes_line(out: &mut Output, key: &[u8], bytes: &[u8])
    ensures { Wrote out.old (line key.now (hex bytes.now)) out.new }
{
    out.text(key);
    out.hex(bytes);
    out.text(b"\n");
}

// The number of command i, which counts from 1 in print, and its statuses.
fn status_lines(out: &mut Output, answers: &[u8], i: usize)
    requires { i * answer_size + answer_size ≤ length answers.now }
    ensures { Wrote out.old (status_lines answers.now i) out.new }
{
    let at = i * sizes::ANSWER;
    number_line(out, b"command=", i + 1);
    bytes_line(out, b"status=", &[answers[at]]);
    bytes_line(out, b"channel=", &[answers[at + answer::CHANNEL_STATUS]]);
}

// The residual of command i, its cause, and the blocks it moved.
fn count_lines(out: &mut Output, answers: &[u8], i: usize)
    requires { i * answer_size + answer_size ≤ length answers.now }
    ensures { Wrote out.old (count_lines answers.now i) out.new }
{
    let at = i * sizes::ANSWER;
    number_line(
        out,
        b"residual=",
        numbers::be2(answers, at + answer::RESIDUAL),
    );
    number_line(out, b"why=", usize::from(answers[at + answer::CAUSE]));
    number_line(out, b"blocks=", numbers::be2(answers, at + answer::BLOCKS));
}

// The lines of the first n commands. They are told by number, as the format has them: by `chunks_exact` each line would be defined anew.
fn command_lines(out: &mut Output, answers: &[u8], n: usize)
    requires { n * answer_size ≤ length answers.now }
    ensures { Wrote out.old (command_lines answers.now n) out.new }
{
    for i in 0..n {
        status_lines(out, answers, i);
        count_lines(out, answers, i);
    }
}

// What a call gave. It returns how many bytes were written.
pub fn print(
    out: &mut [u8],
    cause: usize,
    reached: usize,
    answers: &[u8],
    main: &[u8],
    sense: &[u8],
) -> usize
    requires { reached * answer_size ≤ length answers.now }
    ensures { Adds out.old 0 (printout_of cause reached answers.now main.now sense.now) result out.new }
{
    let mut out = Output::new(out);
    number_line(&mut out, b"cause=", cause);
    number_line(&mut out, b"reached=", reached);
    command_lines(&mut out, answers, reached);
    bytes_line(&mut out, b"storage=", main);
    bytes_line(&mut out, b"sense=", sense);
    out.at
}

// The number of a wrong line. It returns how many bytes were written.
pub fn print_refused(out: &mut [u8], n: usize) -> usize
    ensures { Adds out.old 0 (refused_line n) result out.new }
{
    let mut out = Output::new(out);
    number_line(&mut out, b"refused=", n);
    out.at
}
