//! The text of a report that a table writes.
//!
//! Its lines are separated by `|`, and `7 * refused: no room` is seven lines. These stand for their lines:
//!
//! - `NEW(n)`, the number of new blocks,
//! - `ENTRY(start, size, age)` or `ENTRY(start, size, age, born)`, the head of a listed block,
//! - `HEX(bytes)`, a row of its bytes,
//! - `LEAK(..)`, as `ENTRY`, with the rows of a block of zeros,
//! - `DUMP(start, size, born, min, count, flags, sum)`, what `dump` shows.

use crate::notation::{number_of, with_addresses};
use crate::troubles::Trouble;
use std::alloc::{AllocError, Global};

/// What stands between a name and the parenthesis at the end.
fn within<'a>(line: &'a str, name: &str) -> Option<&'a str> {
    line.strip_prefix(name)?.strip_suffix(')')
}

/// A row of zero bytes.
fn put_zeros(count: usize, report: &mut String) -> Result<(), AllocError> {
    report.push_str("   ")?;
    for _ in 0..count {
        report.push_str(" 00")?;
    }
    report.push('\n')
}

/// The head of a listed block. Gives the number of bytes that follow.
fn put_entry(parts: &str, report: &mut String) -> Result<usize, Trouble> {
    let mut parts = parts.split(", ");
    let start = parts.next().unwrap_or("");
    let size = parts.next().unwrap_or("");
    let age = parts.next().unwrap_or("");
    let born = parts.next().unwrap_or("0");
    let shown = number_of(size)?.min(32);
    writeln!(report, "unreferenced object {start} (size {size}):")?;
    writeln!(report, "  allocated at {born} ms, age {age} ms")?;
    writeln!(report, "  hex dump (first {shown} bytes):")?;
    Ok(shown)
}

/// A listed block of zeros.
fn put_leak(parts: &str, report: &mut String) -> Result<(), Trouble> {
    let shown = put_entry(parts, report)?;
    put_zeros(shown.min(16), report)?;
    if shown > 16 {
        put_zeros(shown - 16, report)?;
    }
    Ok(())
}

/// What `dump` shows of a block.
fn put_dump(parts: &str, report: &mut String) -> Result<(), AllocError> {
    let mut parts = parts.split(", ");
    let start = parts.next().unwrap_or("");
    let size = parts.next().unwrap_or("");
    writeln!(report, "kmemleak: Object {start} (size {size}):")?;
    for name in [
        "allocated at",
        "min_count =",
        "count =",
        "flags =",
        "checksum =",
    ] {
        let value = parts.next().unwrap_or("");
        let unit = if name == "allocated at" { " ms" } else { "" };
        writeln!(report, "kmemleak:   {name} {value}{unit}")?;
    }
    Ok(())
}

/// The lines that a part of a report stands for.
fn put_line(line: &str, report: &mut String) -> Result<(), Trouble> {
    if let Some(count) = within(line, "NEW(") {
        writeln!(
            report,
            "kmemleak: {count} new suspected memory leaks (see /sys/kernel/debug/kmemleak)"
        )?;
    } else if let Some(parts) = within(line, "ENTRY(") {
        let _shown = put_entry(parts, report)?;
    } else if let Some(parts) = within(line, "LEAK(") {
        put_leak(parts, report)?;
    } else if let Some(bytes) = within(line, "HEX(") {
        writeln!(report, "    {bytes}")?;
    } else if let Some(parts) = within(line, "DUMP(") {
        put_dump(parts, report)?;
    } else if !line.is_empty() {
        writeln!(report, "{line}")?;
    }
    Ok(())
}

/// A part as often as is asked.
fn put_copies(times: usize, line: &str, report: &mut String) -> Result<(), Trouble> {
    for _ in 0..times {
        put_line(line, report)?;
    }
    Ok(())
}

/// The report of a text.
pub fn report_of(alloc: Global, text: &str) -> Result<String, Trouble> {
    let text = with_addresses(alloc, text)?;
    let mut report = String::new(alloc);
    for line in text.as_str().split('|') {
        match line.trim().split_once(" * ") {
            None => put_line(line.trim(), &mut report)?,
            Some((times, line)) => put_copies(number_of(times)?, line, &mut report)?,
        }
    }
    Ok(report)
}
