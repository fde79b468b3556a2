//! The refusals that the faults of the hosts are.

ghost use Rattle.std.specs.Prelude.{◌≡◌};
ghost use Rattle.km_base.specs.declared.acts.Answer.TheVariants.{Refused};
ghost use Rattle.km_sections.specs.Named.{refusal_of as section_refusal};
ghost use Rattle.km_tasks.specs.Roll.{refusal_of as task_refusal};
ghost use Rattle.km_slab.specs.Blocks.{answer_of as slab_answer};
ghost use Rattle.km_vmalloc.specs.Areas.{answer_of as vm_answer};
ghost use Rattle.std.specs.Prelude.{Err};

use km_base::Refusal;
use km_sections::SectionFault;
use km_slab::SlabFault;
use km_tasks::TaskFault;
use km_vmalloc::VmFault;

/// Why a section is not added.
pub fn of_section(fault: SectionFault) -> Refusal
    ensures { Refused result ≡ section_refusal fault }
{
    match fault {
        SectionFault::BadSize => Refusal::BadSize,
        SectionFault::SectionExists => Refusal::SectionExists,
        SectionFault::TooManySections => Refusal::TooManySections,
        SectionFault::NoRoom => Refusal::NoRoom,
    }
}

/// Why a task is not started.
pub fn of_task(fault: TaskFault) -> Refusal
    ensures { Refused result ≡ task_refusal fault }
{
    match fault {
        TaskFault::TaskExists => Refusal::TaskExists,
        TaskFault::TooManyTasks => Refusal::TooManyTasks,
        TaskFault::NoRoom => Refusal::NoRoom,
    }
}

/// Why a block is not allocated.
pub fn of_slab(fault: SlabFault) -> Refusal
    ensures { Refused result ≡ slab_answer (Err fault) }
{
    match fault {
        SlabFault::BadSize => Refusal::BadSize,
        SlabFault::NoRoom => Refusal::NoRoom,
    }
}

/// Why an area is not allocated.
pub fn of_vmalloc(fault: VmFault) -> Refusal
    ensures { Refused result ≡ vm_answer (Err fault) }
{
    match fault {
        VmFault::BadSize => Refusal::BadSize,
        VmFault::NoSlot => Refusal::NoSlot,
        VmFault::NoRoom => Refusal::NoRoom,
    }
}
