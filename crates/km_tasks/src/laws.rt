//! What other hosts do leaves the stacks as they are.

ghost use Rattle.std.specs.Prelude.{◌≡◌, ℕ, List, Option};
ghost use Rattle.km_model.specs.Tasks.{Task};
ghost use Rattle.km_pages.specs.declared.runs.Run.{Run};
ghost use Rattle.km_pages.specs.declared.runs.Use.TheVariants.{Stack};
ghost use Rattle.km_pages.specs.Runs.{run_from};
ghost use Rattle.km_tasks.specs.Roll.{Fits};

/// Where no stack is taken or given back, the tasks still have theirs.
pub fn others_leave_stacks()
    ensures { (tasks : List Task) (pages new : List (Option Run)) → Fits tasks pages → ((p : ℕ) → run_from new Stack p ≡ run_from pages Stack p) → Fits tasks new }
{}
