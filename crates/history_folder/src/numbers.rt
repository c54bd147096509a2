//! Which chapters there are.

ghost use Rattle.std.specs.Prelude.{◌≤◌, IfErr, IfOk};
ghost use Rattle.std.specs.List.{All};
ghost use Rattle.chapters.specs.declared.history_end.TheConstants.{MOST_CHAPTERS};
ghost use Rattle.history_folder.specs.Names.{IsChapter};
ghost use Rattle.history_folder.specs.Numbers.{AreAllTo, IsMissing};

use crate::fault::FolderFault;

/// The greatest of the numbers of chapters, in any order; 0 where there is none. `Missing` comes
/// where one below it is left out, with the least.
pub(crate) fn last_of(numbers: Vec<u64>) -> Result<u64, FolderFault>
    requires { All IsChapter numbers.items }
    ensures all { IfOk result (λ last. AreAllTo last numbers.items) }
    ensures most { IfOk result (λ last. last ≤ MOST_CHAPTERS) }
    ensures missing { IfErr result (IsMissing numbers.items) }
{
    let mut numbers = numbers;
    numbers.sort_unstable();
    let mut last = 0;
    for number in numbers.iter() {
        if *number > last + 1 {
            return Err(FolderFault::Missing(last + 1));
        }
        last = *number;
    }
    Ok(last)
}
