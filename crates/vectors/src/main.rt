// Lists every file of a table: a line with the case's number, and what is printed of the file.
// In the table each file stands behind its length, in decimal digits, and LF.
#![tactic(auto)]

ghost use Rattle.std.specs.Prelude.{◌≡◌, ◌+◌, ◌<◌, ◌==◌, length, drop, position, IfSome, IfOk};

use anyhow::anyhow;
use listing::list::report;
use std::io::Read;

// A file's length, as a line says it, and what follows the line.
#[derive(Clone, Copy)]
struct Entry<'a> {
    length: usize,
    rest: &'a [u8],
}

// Where the first line ends; none where no LF stands.
fn line_end(table: &[u8]) -> Option<usize>
    ensures { result ≡ position (λ b. b == 10) table.now }
{
    table.iter().position(|byte| *byte == b'\n')
}

// The entry of the first line; none where there is no line of digits.
// The number by hand: `parse` would take a plus sign, and refuse an empty line, which here is 0.
fn first_entry(table: &[u8]) -> Option<Entry<'_>>
    ensures shorter { IfSome result (λ entry. length entry.rest.now < length table.now) }
    ensures behind { IfSome result (λ entry. IfSome (position (λ b. b == 10) table.now) (λ end. entry.rest.now ≡ drop (end + 1) table.now)) }
{
    let end = line_end(table)?;
    let mut length = 0usize;
    for byte in &table[..end] {
        if !byte.is_ascii_digit() {
            return None;
        }
        // A number too large for the type is longer than any table.
        length = length
            .saturating_mul(10)
            .saturating_add(usize::from(*byte - b'0'));
    }
    Some(Entry {
        length,
        rest: &table[end + 1..],
    })
}

// Prints one case, and answers the table behind it; an error where the table ends inside it.
fn print_case<'a>(rt: &HostRuntime, number: u32, table: &'a [u8]) -> anyhow::Result<&'a [u8]>
    ensures { IfOk result (λ rest. length rest.now < length table.now) }
{
    let case = first_entry(table).and_then(|entry| entry.rest.split_at_checked(entry.length));
    let Some((file, rest)) = case else {
        return Err(anyhow!("the table ends inside a case"));
    };
    println!(rt; "case {number}")?;
    rt.write_all(report(file).as_bytes())?;
    Ok(rest)
}

fn main(rt: HostRuntime) -> anyhow::Result<()> {
    let mut table = Vec::new(rt.alloc());
    rt.stdin().read_to_end(&mut table)?;
    let mut rest = table.as_slice();
    // A range, and no `while`: so the loop ends by itself, and each case has its number.
    for number in 1..u32::MAX {
        if rest.is_empty() {
            return Ok(());
        }
        rest = print_case(&rt, number, rest)?;
    }
    Err(anyhow!("the table has too many cases"))
}
