//! The bytes of a live script and of a report that a row writes.
//!
//! Each line of a script ends in a line feed, but for one that ends in `$`, which has neither. `40 * LINE` is forty lines, and
//! `40 * LINE; LINE` forty times two.

use crate::rows::number_of;
use crate::troubles::Trouble;
use std::alloc::{AllocError, Global};

/// Appends a line, with its line feed unless a `$` ends it.
fn put_line(line: &str, script: &mut String) -> Result<(), AllocError> {
    match line.strip_suffix('$') {
        Some(line) => script.push_str(line),
        None => {
            script.push_str(line)?;
            script.push('\n')
        }
    }
}

/// Appends lines as often as is asked, all of them each time.
fn put_copies(times: usize, lines: &str, script: &mut String) -> Result<(), AllocError> {
    for _ in 0..times {
        for line in lines.split("; ") {
            put_line(line, script)?;
        }
    }
    Ok(())
}

/// The bytes of a script.
pub fn script_of(alloc: Global, text: &str) -> Result<String, Trouble> {
    let mut script = String::new(alloc);
    if text.is_empty() {
        return Ok(script);
    }
    for line in text.split('\n') {
        match line.split_once(" * ") {
            None => put_line(line, &mut script)?,
            Some((times, lines)) => put_copies(number_of(times)?, lines, &mut script)?,
        }
    }
    Ok(script)
}

/// The bytes of a report, which has no blank line.
pub fn report_of(alloc: Global, text: &str) -> Result<String, AllocError> {
    let mut report = String::new(alloc);
    for line in text.split('\n') {
        if !line.is_empty() {
            report.push_str(line)?;
            report.push('\n')?;
        }
    }
    Ok(report)
}
