//! Tables of scripts, in which a line `== NAME` begins a case, and the lines up to the next one are
//! its script. For each case a line is printed: what the script has, or its fault. `== NAME cr`
//! ends each line of the script with a carriage return too, `== NAME cut` leaves out the last line
//! feed, and `== NAME comment N` adds a comment of N octets.

mod case;

use crate::scripts::case::Case;

/// Prints a line for each case of the table.
pub fn print_cases(rt: &HostRuntime) -> anyhow::Result<()> {
    let alloc = rt.alloc();
    let mut case: Option<Case> = None;
    for line in rt.lines(alloc) {
        let line = line?;
        match line.as_str().strip_prefix("== ") {
            Some(title) => {
                if let Some(case) = case.take() {
                    println!(rt; "{}", case.summarize(alloc)?)?;
                }
                case = Some(Case::new(alloc, title)?);
            }
            None => {
                if let Some(case) = &mut case {
                    case.add(line.as_str())?;
                }
            }
        }
    }
    if let Some(case) = case {
        println!(rt; "{}", case.summarize(alloc)?)?;
    }
    Ok(())
}
