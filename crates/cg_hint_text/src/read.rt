//! Hint texts.

ghost use Rattle.std.specs.Prelude.{List, ◌+◌, ◌<◌, length, ◌≡◌, Ok, None, Some, take, drop, IfOk, MatchOption, MatchResult};
ghost use Rattle.cg_limit.specs.Answers.{OrNoMemory};
ghost use Rattle.cg_hint_laws.specs.declared.hint.Hint.{Hint};
ghost use Rattle.cg_hint_text.specs.HintText.{SaysHints};
ghost use Rattle.cg_hint_text.specs.Reading.{all_said, all_terms, hint_of, hints, line_hint, lines_hints, literal_of, register_of};
ghost use Rattle.cg_hint_text.specs.declared.fault.HintFault.TheVariants.{NoMemory};

use crate::fault::HintFault;
use crate::form::{FormAt, is_plus, read_form};
use crate::laws::read_laws;
use crate::names::{literal_of, register_of};
use crate::word::{Word, read_words};
use cg_hint_laws::hint::Hint;
use cg_list::Seq;
use cg_machine::stage::NetLit;
use cg_net::id::RegId;
use cg_netlist::netlist::Netlist;
use cg_text::lines::{BARE, Line, Lines};
use std::alloc::{AllocError, Global};

/// The registers that words name, or `None` where one names none.
fn read_registers(
    alloc: Global,
    netlist: &Netlist,
    words: &[Word<'_>],
) -> Result<Option<Seq<RegId>>, AllocError>
    ensures { IfOk result (λ regs. regs ≡ all_said (register_of netlist.now) words.now) }
{
    let mut regs = Seq::new(alloc);
    for word in words {
        match register_of(netlist, word.bytes()) {
            None => return Ok(None),
            Some(reg) => regs.push(reg)?,
        }
    }
    Ok(Some(regs))
}

/// The terms of the words of a condition, or `None` where a word is no literal.
fn read_terms(
    alloc: Global,
    netlist: &Netlist,
    words: &[Word<'_>],
) -> Result<Option<Seq<Seq<NetLit>>>, AllocError>
    ensures { IfOk result (λ terms. terms ≡ all_terms (literal_of netlist.now) words.now) }
{
    let mut terms = Seq::new(alloc);
    let mut term = Seq::new(alloc);
    for word in words {
        if is_plus(word) {
            terms.push(term)?;
            term = Seq::new(alloc);
        } else {
            match literal_of(netlist, word.bytes()) {
                None => return Ok(None),
                Some(literal) => term.push(literal)?,
            }
        }
    }
    terms.push(term)?;
    Ok(Some(terms))
}

/// The hint of a line of a form, or `None` where a name is unknown.
fn read_hint(
    alloc: Global,
    netlist: &Netlist,
    words: &[Word<'_>],
    form: FormAt,
) -> Result<Option<Hint>, AllocError>
    requires { form.when + 1 + form.end < length words.now }
    ensures { IfOk result (λ hint. hint ≡ hint_of netlist.now
        (record { regs = take form.when words.now; terms = take form.end (drop (form.when + 1) words.now); after = form.after })) }
{
    let first = form.when + 1;
    let Some(regs) = read_registers(alloc, netlist, &words[..form.when])? else {
        return Ok(None);
    };
    match read_terms(alloc, netlist, &words[first..first + form.end])? {
        None => Ok(None),
        Some(terms) => Ok(Some(Hint {
            regs,
            terms,
            after: form.after,
        })),
    }
}

/// The hint of a line.
fn read_line(alloc: Global, netlist: &Netlist, line: Line<'_>) -> Result<Hint, HintFault>
    ensures { OrNoMemory NoMemory (λ hint. hint) result
        (line_hint netlist.now line.entry) }
{
    let number = line.number;
    let words = read_words(alloc, line.words)?;
    let Some(form) = read_form(alloc, &words)? else {
        return Err(HintFault::BadLine(number));
    };
    match read_hint(alloc, netlist, &words, form)? {
        None => Err(HintFault::UnknownName(number)),
        Some(hint) => Ok(hint),
    }
}

/// The hints of a text, or its first fault.
fn read_text(alloc: Global, bytes: &[u8], netlist: &Netlist) -> Result<Seq<Hint>, HintFault>
    ensures { OrNoMemory NoMemory (λ hints. hints) result (hints netlist.now bytes.now) }
{
    let mut lines = Lines::new(bytes, BARE);
    let mut hints = Seq::new(alloc);
    'lines: while let Ok(line) = lines.next_line() {
        let hint = read_line(alloc, netlist, line)?;
        hints.push(hint)?;
    }
    Ok(hints)
}

/// Reads a hint text for a netlist.
///
/// `#` begins a comment, and lines without words are passed over. Each other line is a hint: one or more registers, each once;
/// `when`; one or more terms of one or more literals, with `+` between two terms; `after`, and a number from 0 to 4. A literal is
/// a net, or `!` and a net in one word. The first fault is answered.
pub fn read_hints(alloc: Global, bytes: &[u8], netlist: &Netlist) -> Result<Seq<Hint>, HintFault>
    ensures found { IfOk result (SaysHints netlist.now bytes.now) }
    ensures only { (hs : List Hint) → SaysHints netlist.now bytes.now hs → OrNoMemory NoMemory (λ hints. hints) result (Ok hs) }
    ensures exact { OrNoMemory NoMemory (λ hints. hints) result (hints netlist.now bytes.now) }
{
    read_laws();
    let _nets = netlist.nets();
    read_text(alloc, bytes, netlist)
}
