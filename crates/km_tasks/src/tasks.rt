//! The task host.

ghost use Rattle.std.specs.Prelude.{◌≡◌, ◌+◌, ◌*◌, ◌<◌, ◌≤◌, ◌^◌, ◌==◌, ℕ, List, ◌∷◌, [], ◌++◌, length, map, Some, None, IfOk, IfSome, OnErr, option_map, bytes_eq, true, false, is_some, is_ok, nat_lt, Option, vec_len, vec_capacity};
ghost use Rattle.std.specs.List.{All, position};
ghost use Rattle.std.specs.Result.{result_ok};
ghost use Rattle.km_base.specs.declared.sizes.TheConstants.{PAGE, PAGE_WORDS};
ghost use Rattle.km_model.specs.Placement.{Allocation, lowest_run, page_start, run_place, without_allocation};
ghost use Rattle.km_model.specs.Tasks.{place_of, register, task_named, with_register, without_task};
ghost use Rattle.km_pages.specs.declared.runs.Run.{Run};
ghost use Rattle.km_pages.specs.declared.runs.Use.{Use};
ghost use Rattle.km_pages.specs.declared.runs.Use.TheVariants.{Stack};
ghost use Rattle.km_pages.specs.Uses.{same_use};
ghost use Rattle.km_pages.specs.Runs.{given, lowest_free, place, run_at, run_from, taken};
ghost use Rattle.km_pages.specs.Laid.{AreLaid, IsBeside};
ghost use Rattle.km_tasks.specs.Roll.{Fits, answer_of, refused_first, stack_page, start_answer, task_after, with_task, with_value, without};
ghost use Rattle.km_tasks.specs.Lives.{AreNamed, AreNumbered, task};

use crate::errors::{NoTask, TaskFault};
use km_base::sizes::PAGE;
use km_base::{Addr, Name, NoMemory, Reg, Span};
use km_pages::{Pages, Use};
use std::alloc::Global;
use std::marker::Model;

/// The most tasks that live at once.
const MOST: usize = 64;

/// A live task.
#[derive(Clone, Copy)]
struct Live {
    number: u64,
    name: Name,
    stack: Addr,
    registers: [u64; 4],
}

/// The live tasks, in order of start.
#[derive(Drop)]
pub struct Tasks {
    started: u64,
    lives: Vec<Live>,
}

impl Model for Tasks {
    ghost use Rattle.std.specs.Prelude.{◌≤◌, map, vec_len, vec_capacity};
    ghost use Rattle.km_tasks.specs.Roll.{Roll};
    ghost use Rattle.km_tasks.specs.Lives.{AreNamed, AreNumbered, task};

    ghost Value = { Roll };

    ghost view = { λ s. record { started = s.started; tasks = map task s.lives.items } };

    ghost invariant = { λ s. (vec_len s.lives ≤ 64) × (64 ≤ vec_capacity s.lives) × AreNamed (map task s.lives.items) × AreNumbered 0 (map task s.lives.items) s.started };
}

/// Whether two names are one.
fn is_same(name: Name, other: Name) -> bool
    ensures { result ≡ bytes_eq name other }
{
    name == other
}

/// The place of a register.
fn place(reg: Reg) -> usize
    ensures place { result ≡ place_of reg }
    ensures small { result < 4 }
{
    match reg {
        Reg::R0 => 0,
        Reg::R1 => 1,
        Reg::R2 => 2,
        Reg::R3 => 3,
    }
}

/// Where the first task of a name stands.
fn first_named(lives: &[Live], name: Name) -> Option<usize>
    ensures { result ≡ position (λ l. bytes_eq l.name name) lives.now }
{
    lives.iter().position(|live| is_same(live.name, name))
}

/// Where the task of a name stands among the live ones.
fn place_named(lives: &[Live], name: Name) -> Option<usize>
    ensures place { result ≡ position (λ l. bytes_eq l.name name) lives.now }
    ensures some { is_some result ≡ is_some (task_named (map task lives.now) name) }
{
    first_named(lives, name)
}

/// The live task of a name.
fn named(lives: &[Live], name: Name) -> Option<Live>
    ensures { option_map task result ≡ task_named (map task lives.now) name }
{
    match place_named(lives, name) {
        Some(i) => Some(lives[i]),
        None => None,
    }
}

/// Where the first of the tasks stands whose number is above the given one.
fn place_above(lives: &[Live], number: u64) -> Option<usize>
    ensures { result ≡ position (λ l. nat_lt number l.number) lives.now }
{
    lives.iter().position(|live| number < live.number)
}

/// The first of the tasks whose number is above the given one.
fn first_above(lives: &[Live], number: u64) -> Option<Live>
    ensures { option_map task result ≡ task_after (map task lives.now) number }
{
    match place_above(lives, number) {
        Some(i) => Some(lives[i]),
        None => None,
    }
}

/// Sets a register of the task at a place.
fn set_at(lives: &mut Vec<Live>, i: usize, name: Name, reg: Reg, value: u64)
    requires place { position (λ l. bytes_eq l.name name) lives.old.items ≡ Some i }
    requires names { AreNamed (map task lives.old.items) }
    ensures set { map task lives.new.items ≡ with_register (map task lives.old.items) name reg value }
    ensures names { AreNamed (map task lives.new.items) }
    ensures numbers { (high : ℕ) → AreNumbered 0 (map task lives.old.items) high → AreNumbered 0 (map task lives.new.items) high }
    ensures len { vec_len lives.new ≡ vec_len lives.old }
    ensures capacity { vec_capacity lives.new ≡ vec_capacity lives.old }
{
    let live = &mut lives[i];
    live.registers[place(reg)] = value;
}

/// Removes the task at a place.
fn remove_at(lives: &mut Vec<Live>, i: usize, name: Name)
    requires place { position (λ l. bytes_eq l.name name) lives.old.items ≡ Some i }
    requires names { AreNamed (map task lives.old.items) }
    ensures gone { map task lives.new.items ≡ without_task (map task lives.old.items) name }
    ensures names { AreNamed (map task lives.new.items) }
    ensures numbers { (high : ℕ) → AreNumbered 0 (map task lives.old.items) high → AreNumbered 0 (map task lives.new.items) high }
    ensures len { vec_len lives.new + 1 ≡ vec_len lives.old }
    ensures capacity { vec_capacity lives.new ≡ vec_capacity lives.old }
{
    lives.remove(i);
}

/// Why a task of a name is refused before a page for its stack is looked for.
fn fault(lives: &[Live], name: Name) -> Option<TaskFault>
    requires { length lives.now ≤ 64 }
    ensures answer { refused_first result ≡ start_answer (map task lives.now) name (Some 0) }
    ensures unnamed { result ≡ None → task_named (map task lives.now) name ≡ None }
    ensures room { result ≡ None → length lives.now < 64 }
{
    if place_named(lives, name).is_some() {
        return Some(TaskFault::TaskExists);
    }
    if lives.len() >= MOST {
        return Some(TaskFault::TooManyTasks);
    }
    None
}

impl Tasks {
    /// No tasks, with memory for all that can live at once.
    pub fn new(alloc: Global) -> Result<Tasks, NoMemory>
        ensures none { IfOk result (λ s. s ≡ record { started = 0; tasks = [] }) }
        ensures fits { IfOk result (λ s. (pages : List (Option Run)) → Fits s.tasks pages) }
    {
        match Vec::with_capacity(alloc, MOST) {
            Ok(lives) => Ok(Tasks { started: 0, lives }),
            Err(_) => Err(NoMemory),
        }
    }

    /// Starts a task, with a stack on the lowest free page.
    pub fn start(&mut self, pages: &mut Pages, name: Name) -> Result<(), TaskFault>
        requires { self.old.started + 1 < 2 ^ 64 }
        ensures answer { answer_of result ≡ start_answer self.old.tasks name (place pages.old 1) }
        ensures started { IfOk result (λ _. self.new ≡ with_task self.old name (page_start (lowest_free pages.old 1))) }
        ensures taken { IfOk result (λ _. pages.new ≡ taken pages.old Stack (page_start (lowest_free pages.old 1)) 1) }
        ensures refused { OnErr result (self.new ≡ self.old) }
        ensures pages_stay { OnErr result (pages.new ≡ pages.old) }
        ensures pages_count { length pages.new ≡ length pages.old }
        ensures others { (other : Use) (p : ℕ) → same_use Stack other ≡ false → run_from pages.new other p ≡ run_from pages.old other p }
        ensures fits { Fits self.old.tasks pages.old → Fits self.new.tasks pages.new }
        ensures answer_among { (used : List Allocation) → AreLaid pages.old used → answer_of result ≡ start_answer self.old.tasks name (run_place (PAGE_WORDS * length pages.old) used 1) }
        ensures started_among { IfOk result (λ _. (used : List Allocation) → AreLaid pages.old used → self.new ≡ with_task self.old name (page_start (lowest_run used 1))) }
        ensures apart { IfOk result (λ _. (used : List Allocation) → AreLaid pages.old used → All (λ (x : Allocation). IsBeside x (stack_page (page_start (lowest_run used 1)))) used) }
        ensures laid { IfOk result (λ _. (used : List Allocation) → AreLaid pages.old used → AreLaid pages.new (used ++ stack_page (page_start (lowest_run used 1)) ∷ [])) }
    {
        if let Some(fault) = fault(&self.lives, name) {
            return Err(fault);
        }
        let Ok(stack) = pages.take(1, Use::Stack) else {
            return Err(TaskFault::NoRoom);
        };
        self.started += 1;
        self.lives.push_reserved(Live {
            number: self.started,
            name,
            stack,
            registers: [0; 4],
        });
        Ok(())
    }

    /// Ends the task of a name, and gives its stack back.
    pub fn exit(&mut self, pages: &mut Pages, name: Name) -> Result<(), NoTask>
        requires { Fits self.old.tasks pages.old }
        ensures answer { is_ok result ≡ is_some (task_named self.old.tasks name) }
        ensures gone { IfOk result (λ _. self.new ≡ without self.old name) }
        ensures given { IfOk result (λ _. IfSome (task_named self.old.tasks name) (λ t. pages.new ≡ given pages.old t.stack 1)) }
        ensures refused { OnErr result (self.new ≡ self.old) }
        ensures pages_stay { OnErr result (pages.new ≡ pages.old) }
        ensures pages_count { length pages.new ≡ length pages.old }
        ensures others { (other : Use) (p : ℕ) → same_use Stack other ≡ false → run_from pages.new other p ≡ run_from pages.old other p }
        ensures fits { Fits self.new.tasks pages.new }
        ensures run { IfOk result (λ _. IfSome (task_named self.old.tasks name) (λ t. run_at pages.old Stack t.stack ≡ Some 1)) }
        ensures laid { IfOk result (λ _. (used : List Allocation) → AreLaid pages.old used → IfSome (task_named self.old.tasks name) (λ t. AreLaid pages.new (without_allocation used t.stack))) }
    {
        let Some(i) = place_named(&self.lives, name) else {
            return Err(NoTask);
        };
        let stack = self.lives[i].stack;
        match pages.give(stack, Use::Stack) {
            Ok(_) => {
                remove_at(&mut self.lives, i, name);
                Ok(())
            }
            Err(_) => unreachable!(),
        }
    }

    /// What a register of a task holds.
    pub fn reg(&self, name: Name, reg: Reg) -> Result<u64, NoTask>
        ensures { result_ok result ≡ option_map (λ t. register t reg) (task_named self.now.tasks name) }
    {
        match named(&self.lives, name) {
            Some(live) => Ok(live.registers[place(reg)]),
            None => Err(NoTask),
        }
    }

    /// Sets a register of a task.
    pub fn set_reg(&mut self, name: Name, reg: Reg, value: u64) -> Result<(), NoTask>
        ensures answer { is_ok result ≡ is_some (task_named self.old.tasks name) }
        ensures set { IfOk result (λ _. self.new ≡ with_value self.old name reg value) }
        ensures refused { OnErr result (self.new ≡ self.old) }
        ensures fits { (pages : List (Option Run)) → Fits self.old.tasks pages → Fits self.new.tasks pages }
    {
        let Some(i) = place_named(&self.lives, name) else {
            return Err(NoTask);
        };
        set_at(&mut self.lives, i, name, reg, value);
        Ok(())
    }

    /// The first byte of a task's stack.
    pub fn stack(&self, name: Name) -> Result<Addr, NoTask>
        ensures { option_map (λ a. a.0) (result_ok result) ≡ option_map (λ t. t.stack) (task_named self.now.tasks name) }
    {
        match named(&self.lives, name) {
            Some(live) => Ok(live.stack),
            None => Err(NoTask),
        }
    }

    /// The live task of the least number above the given one, and its stack.
    pub fn next_after(&self, number: u64) -> Option<(u64, Span)>
        ensures number { option_map (λ r. r.0) result ≡ option_map (λ t. t.number) (task_after self.now.tasks number) }
        ensures stack { option_map (λ r. r.1.start.0) result ≡ option_map (λ t. t.stack) (task_after self.now.tasks number) }
        ensures size { IfSome result (λ r. r.1.size ≡ PAGE) }
        ensures numbers { AreNumbered 0 self.now.tasks self.now.started }
    {
        match first_above(&self.lives, number) {
            Some(live) => Some((
                live.number,
                Span {
                    start: live.stack,
                    size: PAGE,
                },
            )),
            None => None,
        }
    }
}
