//! The words of stacks, in order of tasks.

ghost use Rattle.std.specs.Prelude.{◌≡◌, filter, nat_lt, option_map, true};
ghost use Rattle.std.specs.List.{All};
ghost use Rattle.km_model.specs.Scan.{first_stack, place_in, stack_of, word_above};
ghost use Rattle.km_model.specs.Tasks.{Task};
ghost use Rattle.km_track.specs.Tracker.{Tracker};
ghost use Rattle.km_scan.specs.Places.{place_of};
ghost use Rattle.km_scan.specs.Stand.{FitsDue, IsStackWord, StackEnds};

use crate::places::At;
use km_base::Addr;
use km_base::sizes::PAGE;
use km_tasks::Tasks;

/// The bytes from the first word of a stack to its last.
const TO_LAST: u64 = PAGE - 8;

/// The word behind another in the stack of a task, where that lives.
pub fn word_behind(tasks: &Tasks, task: u64, word: Addr) -> Option<At>
    requires word { All (IsStackWord task word.0) tasks.now.tasks }
    requires end { All StackEnds tasks.now.tasks }
    ensures place { option_map place_of result ≡ place_in 1 task (word_above word.0 (stack_of tasks.now.tasks task)) }
    ensures fits { (t : Tracker) → FitsDue true result t tasks.now }
{
    let (number, stack) = tasks.next_after(task.saturating_sub(1))?;
    if number != task || word.0 - stack.start.0 >= TO_LAST {
        return None;
    }
    Some(At::Stack {
        task,
        word: Addr(word.0 + 8),
    })
}

/// The first word of the stack of the first live task whose number is above another.
pub fn first_above(tasks: &Tasks, number: u64) -> Option<At>
    ensures place { option_map place_of result ≡ first_stack (filter (λ (t : Task). nat_lt number t.number) tasks.now.tasks) }
    ensures fits { (t : Tracker) → FitsDue true result t tasks.now }
    ensures all { number ≡ 0 → option_map place_of result ≡ first_stack tasks.now.tasks }
{
    let (task, stack) = tasks.next_after(number)?;
    Some(At::Stack {
        task,
        word: stack.start,
    })
}
