//! Lines of the KVM device, by what stands after the name of the operation, and what they go on with.

ghost use Rattle.std.specs.Prelude.{◌≡◌, ℕ, List};
ghost use Rattle.xv_model.specs.declared.operations.Op.TheVariants as ops;
ghost use Rattle.board_script.specs.Grammar.{AnyNumber, walk};
ghost use Rattle.board_script.specs.Operations.{attribute, does, event_queue, next_entry as last_words, nothing, one, processor, processor_state, two, word32};
ghost use Rattle.xv_model.specs.device.Attributes.{setting_by};
ghost use Rattle.board_script.specs.Setting.{initialisation, sets, then_set};
ghost use Rattle.board_script.specs.Work.{migrate};

use crate::faults::Misread;
use crate::steps::Then;
use crate::words::Words;
use crate::work::Work;
use xv_model::board::Board;
use xv_model::kvm::{Attribute, GRP_EQ_CONFIG, Setting};
use xv_model::operations::{AttrValue, EqFields, Op};

/// The initialisation of a source: a message source has no line that could be up.
fn initialise(board: &Board, s: u32, asserted: bool) -> Then
    ensures { result ≡ initialisation board.now s asserted }
{
    Then::Init {
        s,
        asserted: board.is_level(s) && asserted,
    }
}

/// What a setting goes on with where it is accepted.
fn then_setting(board: &Board, setting: &Setting) -> Then
    ensures { result ≡ then_set board.now setting.now }
{
    let sources = board.limits.sources;
    match setting {
        Setting::Reset => Then::Reset { from: 0, sources },
        Setting::EqSync => Then::Drain { from: 0, sources },
        Setting::Source { args } if args.source < sources as u64 => {
            initialise(board, args.source as u32, args.asserted)
        }
        Setting::SourceSync { source } if *source < sources as u64 => Then::Sync {
            s: *source as u32,
        },
        _ => Then::Done,
    }
}

/// The setting that a group, an attribute and a number name.
fn setting_of(group: u32, attr: u64, value: AttrValue) -> Option<Setting>
    ensures { result ≡ setting_by group attr value }
{
    let attribute = Attribute::from_number(group, attr)?;
    Setting::from_value(attribute, value)
}

/// An attribute that is set to a number.
fn set(board: &Board, group: u32, attr: u64, value: u64) -> Work
    ensures { result ≡ sets board.now group attr value }
{
    let value = AttrValue::Number { value };
    let then = match setting_of(group, attr, value) {
        Some(setting) => then_setting(board, &setting),
        None => Then::Done,
    };
    Work::with_then(Op::AttrSet { group, attr, value }, then)
}

/// An attribute that is set: its group, the attribute and the value.
pub fn kvmset_line(board: &Board, words: &mut Words) -> Result<Work, Misread>
    ensures { (at : List ℕ) → result ≡ walk at (attribute board.now) words.old }
{
    let group = words.bounded(0, 1 << 32)?;
    let attr = words.number()?;
    let value = words.number()?;
    words.done()?;
    Ok(set(board, group, attr, value))
}

/// An event queue that is set, with the toggle and the index of its next entry, the last two words of a line.
fn next_entry(attr: u64, eq: EqFields, words: &mut Words) -> Result<Work, Misread>
    ensures { (at : List ℕ) → result ≡ walk at (last_words attr eq) words.old }
{
    let qtoggle = words.bounded(0, 1 << 32)?;
    let qindex = words.bounded(0, 1 << 32)?;
    words.done()?;
    let eq = EqFields {
        qtoggle,
        qindex,
        ..eq
    };
    Ok(Work::once(Op::AttrSet {
        group: GRP_EQ_CONFIG,
        attr,
        value: AttrValue::Queue { eq },
    }))
}

/// An event queue that is set: its identifier, its flags, its size and its address, and what stands after them.
pub fn kvmeq_line(words: &mut Words) -> Result<Work, Misread>
    ensures { (at : List ℕ) → result ≡ walk at event_queue words.old }
{
    let attr = words.number()?;
    let flags = words.bounded(0, 1 << 32)?;
    let qshift = words.bounded(0, 1 << 32)?;
    let qaddr = words.number()?;
    let eq = EqFields {
        flags,
        qshift,
        qaddr,
        qtoggle: 0,
        qindex: 0,
    };
    next_entry(attr, eq, words)
}

/// An attribute that is asked for: its group, and the attribute.
pub fn kvmget_line(words: &mut Words) -> Result<Work, Misread>
    ensures { (at : List ℕ) → result ≡ walk at (two word32 AnyNumber (λ group number. does (ops.AttrGet group number))) words.old }
{
    let group = words.bounded(0, 1 << 32)?;
    let attr = words.number()?;
    words.done()?;
    Ok(Work::once(Op::AttrGet { group, attr }))
}

/// The state of a processor that is asked for.
pub fn vpget_line(board: &Board, words: &mut Words) -> Result<Work, Misread>
    ensures { (at : List ℕ) → result ≡ walk at (one (processor board.now) (λ v. does (ops.VpGet v))) words.old }
{
    let v = words.bounded(0, board.limits.processors as u64)?;
    words.done()?;
    Ok(Work::once(Op::VpGet { v }))
}

/// The state of a processor that is set: its CPPR, and its IPB.
pub fn vpset_line(board: &Board, words: &mut Words) -> Result<Work, Misread>
    ensures { (at : List ℕ) → result ≡ walk at (processor_state board.now) words.old }
{
    let v = words.bounded(0, board.limits.processors as u64)?;
    let cppr = words.bounded(0, 1 << 8)?;
    let ipb = words.bounded(0, 1 << 8)?;
    words.done()?;
    Ok(Work::once(Op::VpSet {
        v,
        cppr: cppr as u8,
        ipb: ipb as u8,
    }))
}

/// The migration of all sources of a board.
pub fn migrate_line(board: &Board, words: &mut Words) -> Result<Work, Misread>
    ensures { (at : List ℕ) → result ≡ walk at (nothing (migrate board.now.limits.sources)) words.old }
{
    words.done()?;
    Ok(Work::migrate(board.limits.sources))
}
