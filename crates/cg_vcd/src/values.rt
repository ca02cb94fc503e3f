//! The values of ids, before a step and in it.

ghost use Rattle.std.specs.Prelude.{◌≡◌, ◌<◌, [], None, length, replicate, IfOk, OnOk};
ghost use Rattle.std.specs.List.{All};
ghost use Rattle.cg_net.specs.NetSets.{with_net};
ghost use Rattle.cg_vcd.specs.inner.StepValues.{AreValues, Marked, SameBut, without_value};
ghost use Rattle.cg_vcd.specs.inner.Values.{kept, with_value};

use std::alloc::{AllocError, Global};

/// The values of ids: before a step, and behind the changes of it that were read.
///
/// A change writes the latest values alone, and notes its id, once. So what is kept of a step grows with the ids that change in
/// it, and not with the changes, and its end looks at these ids alone.
#[derive(Drop)]
pub(crate) struct Values {
    /// For each id its value before the step.
    pub before: Vec<Option<bool>>,
    /// For each id its value behind the changes that were read.
    pub latest: Vec<Option<bool>>,
    /// The ids that were given a value in the step, each once.
    pub given: Vec<usize>,
    /// For each id whether it is among these.
    pub marks: Vec<bool>,
}

impl Values {
    /// Of so many ids, none of which has a value.
    pub(crate) fn new(alloc: Global, count: usize) -> Result<Values, AllocError>
        ensures values { IfOk result (λ values. AreValues values) }
        ensures count { IfOk result (λ values. length values.before.items ≡ count) }
        ensures before { IfOk result (λ values. kept values.before.items ≡ without_value) }
        ensures latest { IfOk result (λ values. kept values.latest.items ≡ without_value) }
    {
        Ok(Values {
            before: no_values(alloc, count)?,
            latest: no_values(alloc, count)?,
            given: Vec::new(alloc),
            marks: no_marks(alloc, count)?,
        })
    }

    /// Gives an id a value.
    pub(crate) fn give(&mut self, id: usize, value: Option<bool>) -> Result<(), AllocError>
        requires values { AreValues self.old }
        requires id { id < length self.old.before.items }
        ensures values { OnOk result (AreValues self.new) }
        ensures before { self.new.before.items ≡ self.old.before.items }
        ensures latest { OnOk result (kept self.new.latest.items ≡ with_value (kept self.old.latest.items) id value) }
    {
        note(&mut self.given, &mut self.marks, id)?;
        self.latest[id] = value;
        Ok(())
    }

    /// Ends the step: the latest values are those before the next one.
    pub(crate) fn end_step(&mut self)
        requires values { AreValues self.old }
        ensures values { AreValues self.new }
        ensures count { length self.new.before.items ≡ length self.old.before.items }
        ensures before { kept self.new.before.items ≡ kept self.old.latest.items }
        ensures latest { self.new.latest.items ≡ self.old.latest.items }
    {
        settle(&mut self.before, &self.latest, &self.given, &mut self.marks);
        self.given.clear();
    }
}

/// Without a value for any of so many ids.
fn no_values(alloc: Global, count: usize) -> Result<Vec<Option<bool>>, AllocError>
    ensures { IfOk result (λ values. values.items ≡ replicate count None) }
{
    Ok(vec![in alloc; None; count]?)
}

/// Without a mark for any of so many ids.
fn no_marks(alloc: Global, count: usize) -> Result<Vec<bool>, AllocError>
    ensures long { IfOk result (λ marks. length marks.items ≡ count) }
    ensures marked { IfOk result (λ marks. Marked marks.items []) }
{
    Ok(vec![in alloc; false; count]?)
}

/// Notes that an id is given a value, once.
fn note(given: &mut Vec<usize>, marks: &mut [bool], id: usize) -> Result<(), AllocError>
    requires within { id < length marks.old }
    requires marked { Marked marks.old given.old.items }
    ensures given { OnOk result (given.new.items ≡ with_net given.old.items id) }
    ensures long { length marks.new ≡ length marks.old }
    ensures marked { OnOk result (Marked marks.new given.new.items) }
{
    if marks[id] {
        return Ok(());
    }
    given.push(id)?;
    marks[id] = true;
    Ok(())
}

/// Gives the ids before a step their latest values, and takes the marks of those that were given one.
fn settle(before: &mut [Option<bool>], latest: &[Option<bool>], given: &[usize], marks: &mut [bool])
    requires latest { length latest.now ≡ length before.old }
    requires marks { length marks.old ≡ length before.old }
    requires given { All (λ id. id < length before.old) given.now }
    requires marked { Marked marks.old given.now }
    requires others { SameBut given.now (kept before.old) (kept latest.now) }
    ensures count { length before.new ≡ length before.old }
    ensures long { length marks.new ≡ length marks.old }
    ensures marked { Marked marks.new [] }
    ensures before { kept before.new ≡ kept latest.now }
{
    for id in given {
        before[*id] = latest[*id];
        marks[*id] = false;
    }
}
