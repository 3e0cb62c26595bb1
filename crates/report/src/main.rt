// The report program (01, "The report"): reads a text, has the report on it made, and writes that.
#![tactic(auto)]

ghost use Rattle.std.specs.Prelude.{◌≡◌, ◌<◌, ◌≤◌, OnOk, length, take, replicate};
ghost use Rattle.std.specs.Io.KnownBytes.{Appends, Consumes, IsAtEnd};
ghost use Rattle.reporting.specs.Report.{report_of, out_after};

use reporting_code::report;
use std::io;
use std::io::{Read, Write};

fn main(rt: HostRuntime) -> io::Result<()> {
    let mut text = input_buffer();
    let mut out = report_buffer();
    let mut input = rt.stdin();
    let mut output = rt.stdout();
    let (_, ended) = answer(&mut input, &mut output, &mut text, &mut out);
    ended
}

// Zeros for the program's two buffers: one byte more than a text may have, which tells that there are more, and room for any report.
fn input_buffer() -> [u8; 65537]
    ensures value { 65537 ≡ length result }
    ensures value_2 { result ≡ replicate 65537 0 }
{
    [0; 65537]
}

fn report_buffer() -> [u8; 655360]
    ensures value { 655360 ≡ length result }
    ensures value_2 { result ≡ replicate 655360 0 }
{
    [0; 655360]
}

// Reads a text from the input into a lent buffer, has the report made in the other, and writes it to the output; how many bytes it
// read, and the first error of reading or writing. A read that fails ends the text, and the report is made and written all the same.
// The system is trusted for what no contract can say: that the bytes of standard input are those that it hands over, and that the bytes
// handed over to it, which are the report's and no others, reach standard output. That `main` calls this once is to be read there.
fn answer<R: Read, W: Write>(
    input: &mut R,
    output: &mut W,
    text: &mut [u8; 65537],
    out: &mut [u8; 655360],
) -> (usize, io::Result<()>)
    ensures read { (result.0 ≤ 65537) × (length text.new ≡ 65537) }
    ensures made { out.new ≡ out_after (take result.0 text.new) out.old }
    ensures taken { Consumes (R.remaining input.old) (R.remaining input.new) (take result.0 text.new) }
    ensures whole { OnOk result.1 (result.0 < 65537 → IsAtEnd (R.remaining input.new)) }
    ensures written { OnOk result.1 (Appends (W.contents output.old) (W.contents output.new) (report_of (take result.0 text.new))) }
{
    let (n, was_read) = read_text(input, text);
    let size = report_first(text, n, out);
    let was_written = write_first(output, text, n, out, size);
    (n, was_read.and(was_written))
}

// Reads into a buffer until it is full, the input ends or a read fails; how many bytes it read, and the error of the read that failed.
fn read_text<R: Read>(input: &mut R, text: &mut [u8]) -> (usize, io::Result<()>)
    ensures inside { (result.0 ≤ length text.new) × (length text.new ≡ length text.old) }
    ensures taken { Consumes (R.remaining input.old) (R.remaining input.new) (take result.0 text.new) }
    ensures whole { OnOk result.1 (result.0 < length text.new → IsAtEnd (R.remaining input.new)) }
{
    let mut n = 0;
    while n < text.len() {
        match input.read(&mut text[n..]) {
            Ok(0) => return (n, Ok(())),
            Ok(more) => n += more,
            Err(error) => return (n, Err(error)),
        }
    }
    (n, Ok(()))
}

// The report on the first n bytes of a buffer; its length.
fn report_first(text: &[u8], n: usize, out: &mut [u8; 655360]) -> usize
    requires { (n ≤ length text.now) × (n ≡ length (take n text.now)) }
    ensures value { result ≡ length (report_of (take n text.now)) }
    ensures out_after { out.new ≡ out_after (take n text.now) out.old }
    ensures upper_bound { (result ≤ length out.new) × (result ≡ length (take result out.new)) }
{
    report(&text[..n], out)
}

// Writes the report on the first n bytes of a buffer, which stands in the first `size` bytes of another.
fn write_first<W: Write>(
    output: &mut W,
    text: &[u8],
    n: usize,
    out: &[u8],
    size: usize,
) -> io::Result<()>
    requires n_in_bounds { (n ≤ length text.now) × (n ≡ length (take n text.now)) }
    requires size_in_bounds { (size ≤ length out.now) × (size ≡ length (take size out.now)) }
    requires out_value { take size out.now ≡ report_of (take n text.now) }
    ensures { OnOk result (Appends (W.contents output.old) (W.contents output.new) (report_of (take n text.now))) }
{
    write_report(output, &text[..n], &out[..size])
}

// Writes the report on a text to the output; it is only called with these bytes.
fn write_report<W: Write>(output: &mut W, text: &[u8], report: &[u8]) -> io::Result<()>
    requires { report.now ≡ report_of text.now }
    ensures { OnOk result (Appends (W.contents output.old) (W.contents output.new) (report_of text.now)) }
{
    output.write_all(report)
}
