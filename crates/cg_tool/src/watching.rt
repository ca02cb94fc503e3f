//! The watchers that a run is handed.

ghost use Rattle.std.specs.Prelude.{◌≡◌, map, slice_get, IfOk};
ghost use Rattle.std.specs.Option.{option_map};
ghost use Rattle.cg_tool.specs.Watching.{kind_at};

use cg_report::watcher::Watcher;
use std::alloc::{AllocError, Global};

/// Their names, in their order.
pub fn names_of<'a>(
    alloc: Global,
    watchers: &'a [Box<dyn Watcher>],
) -> Result<Vec<&'a str>, AllocError>
    ensures { IfOk result (λ names. map (λ name. name.now) names.items ≡ map (λ watcher. called watcher) watchers.entry.now) }
{
    let mut names = Vec::new(alloc);
    'watchers: for watcher in watchers {
        names.push(name_of(watcher))?;
    }
    Ok(names)
}

/// The name of a watcher.
fn name_of(watcher: &Box<dyn Watcher>) -> &str
    ensures { result.now ≡ called watcher.now }
{
    watcher.name()
}

/// The watcher at a place among these, if one is asked for.
pub fn chosen(watchers: Vec<Box<dyn Watcher>>, place: Option<usize>) -> Option<Box<dyn Watcher>>
    ensures { option_map (λ watcher. says watcher) result ≡ kind_at (map (λ watcher. says watcher) watchers.items) place }
{
    match place {
        None => None,
        Some(place) => watcher_at(watchers, place),
    }
}

/// The watcher at a place among these.
fn watcher_at(watchers: Vec<Box<dyn Watcher>>, place: usize) -> Option<Box<dyn Watcher>>
    ensures { option_map (λ watcher. says watcher) result ≡ slice_get (map (λ watcher. says watcher) watchers.items) place }
{
    let mut watchers = watchers;
    if place < watchers.len() {
        Some(watchers.swap_remove(place))
    } else {
        None
    }
}
