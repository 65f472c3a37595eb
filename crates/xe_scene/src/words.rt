//! What the words of one line say.
ghost use Rattle.std.specs.Prelude.{◌≡◌, ◌≤◌, All, IfOk, length, map};
ghost use Rattle.xe_base.specs.Access.{is_msr};
ghost use Rattle.xe_scene.specs.Words as spec;
ghost use Rattle.xe_scene.specs.Formed.{IsItemFor, IsFormedEntry};
ghost use Rattle.xe_scene.specs.Agrees.{Agrees};

use crate::command::{Command, Item};
use crate::names::{
    CommandName, command_name, direction_of, intercept_name, register_most, register_name,
    segment_name, space_of, table_name,
};
use crate::number::{bytes_of, decimal_number, hex_number};
use crate::reason::Reason;
use arrayvec::ArrayVec;
use xe_base::Space;
use xe_icpt::SvmName;
use xe_mem::Region;

/// What a line adds to the scene.
#[derive(Drop)]
pub(crate) enum Entry {
    Ram(Region),
    Obey(Command),
}

/// A number that is at most the greatest value of its field.
#[tactic(auto, unfolding(crate::specs::Words::number_up_to))]
fn number_up_to(most: u64, word: &[u8]) -> Result<u64, Reason>
    ensures value { result ≡ spec.number_up_to most word.now }
    ensures most { IfOk result (λ n. n ≤ most) }
{
    hex_number(most, word).ok_or(Reason::BadNumber)
}

/// A number of 64 bits.
fn quad(word: &[u8]) -> Result<u64, Reason>
    ensures { result ≡ spec.quad word.now }
{
    number_up_to(u64::MAX, word)
}

#[tactic(auto, unfolding(crate::specs::Words::region_at))]
fn region_at(start: &[u8], len: &[u8]) -> Result<Entry, Reason>
    ensures value { result ≡ spec.region_at start.now len.now }
    ensures formed { IfOk result IsFormedEntry }
{
    let start = quad(start)?;
    let len = quad(len)?;
    Ok(Entry::Ram(Region { start, len }))
}

/// `ram START LEN`
#[tactic(auto, unfolding(crate::specs::Words::region_of))]
fn region_of(late: bool, words: &[&[u8]]) -> Result<Entry, Reason>
    ensures value { result ≡ spec.region_of late (map (λ w. w.now) words.now) }
    ensures formed { IfOk result IsFormedEntry }
{
    match words {
        [start, len] => {
            if late {
                return Err(Reason::LateRam);
            }
            region_at(start, len)
        }
        _ => Err(Reason::WordCount),
    }
}

#[tactic(auto, unfolding(crate::specs::Words::register_with))]
fn register_with(name: &[u8], value: &[u8]) -> Result<Entry, Reason>
    ensures value { result ≡ spec.register_with name.now value.now }
    ensures formed { IfOk result IsFormedEntry }
{
    let name = register_name(name)?;
    let value = number_up_to(register_most(name), value)?;
    Ok(Entry::Obey(Command::Reg(name, value)))
}

/// `reg NAME H`
#[tactic(auto, unfolding(crate::specs::Words::register_of))]
fn register_of(words: &[&[u8]]) -> Result<Entry, Reason>
    ensures value { result ≡ spec.register_of (map (λ w. w.now) words.now) }
    ensures formed { IfOk result IsFormedEntry }
{
    match words {
        [name, value] => register_with(name, value),
        _ => Err(Reason::WordCount),
    }
}

#[tactic(auto, unfolding(crate::specs::Words::segment_with))]
fn segment_with(
    name: &[u8],
    selector: &[u8],
    base: &[u8],
    limit: &[u8],
    attr: &[u8],
) -> Result<Entry, Reason>
    ensures value { result ≡ spec.segment_with name.now selector.now base.now limit.now attr.now }
    ensures formed { IfOk result IsFormedEntry }
{
    let name = segment_name(name)?;
    let selector = number_up_to(0xffff, selector)?;
    let base = quad(base)?;
    let limit = number_up_to(0xffff_ffff, limit)?;
    let attr = number_up_to(0xffff, attr)?;
    Ok(Entry::Obey(Command::Seg(name, selector, base, limit, attr)))
}

/// `seg NAME SEL BASE LIMIT ATTR`
#[tactic(auto, unfolding(crate::specs::Words::segment_of))]
fn segment_of(words: &[&[u8]]) -> Result<Entry, Reason>
    ensures value { result ≡ spec.segment_of (map (λ w. w.now) words.now) }
    ensures formed { IfOk result IsFormedEntry }
{
    match words {
        [name, selector, base, limit, attr] => segment_with(name, selector, base, limit, attr),
        _ => Err(Reason::WordCount),
    }
}

#[tactic(auto, unfolding(crate::specs::Words::table_with))]
fn table_with(name: &[u8], base: &[u8], limit: &[u8]) -> Result<Entry, Reason>
    ensures value { result ≡ spec.table_with name.now base.now limit.now }
    ensures formed { IfOk result IsFormedEntry }
{
    let name = table_name(name)?;
    let base = quad(base)?;
    let limit = number_up_to(0xffff, limit)?;
    Ok(Entry::Obey(Command::Table(name, base, limit)))
}

/// `table NAME BASE LIMIT`
#[tactic(auto, unfolding(crate::specs::Words::table_of))]
fn table_of(words: &[&[u8]]) -> Result<Entry, Reason>
    ensures value { result ≡ spec.table_of (map (λ w. w.now) words.now) }
    ensures formed { IfOk result IsFormedEntry }
{
    match words {
        [name, base, limit] => table_with(name, base, limit),
        _ => Err(Reason::WordCount),
    }
}

#[tactic(auto, unfolding(crate::specs::Words::poke_at))]
fn poke_at(address: &[u8], bytes: &[u8]) -> Result<Entry, Reason>
    ensures value { result ≡ spec.poke_at address.now bytes.now }
    ensures formed { IfOk result IsFormedEntry }
{
    let address = quad(address)?;
    let bytes = bytes_of(bytes).ok_or(Reason::BadBytes)?;
    Ok(Entry::Obey(Command::Poke(address, bytes)))
}

/// `poke PA BYTES`
#[tactic(auto, unfolding(crate::specs::Words::poke_of))]
fn poke_of(words: &[&[u8]]) -> Result<Entry, Reason>
    ensures value { result ≡ spec.poke_of (map (λ w. w.now) words.now) }
    ensures formed { IfOk result IsFormedEntry }
{
    match words {
        [address, bytes] => poke_at(address, bytes),
        _ => Err(Reason::WordCount),
    }
}

fn is_msr(space: Space) -> bool
    ensures { result ≡ is_msr space }
{
    matches!(space, Space::Msr)
}

#[tactic(auto, unfolding(crate::specs::Words::item_of))]
fn item_of(space: Space, word: &[u8]) -> Result<Item, Reason>
    ensures value { result ≡ spec.item_of space word.now }
    ensures formed { IfOk result (IsItemFor space) }
{
    if word == b"wait".as_slice() {
        return Ok(Item::Wait);
    }
    if word == b"fail".as_slice() {
        return Ok(Item::Fail);
    }
    if word == b"no".as_slice() {
        return if is_msr(space) {
            Ok(Item::No)
        } else {
            Err(Reason::UnknownName)
        };
    }
    let value = quad(word)?;
    Ok(Item::Value(value))
}

fn items_of(space: Space, words: &[&[u8]]) -> Result<ArrayVec<Item, 16>, Reason>
    requires { length words.now ≤ 16 }
    ensures value { Agrees (λ v. v.items) result (spec.items_of space (map (λ w. w.now) words.now)) }
    ensures count { IfOk result (λ v. length v.items ≡ length words.now) }
    ensures formed { IfOk result (λ v. All (IsItemFor space) v.items) }
{
    let mut items = ArrayVec::new();
    for word in words {
        items.push(item_of(space, word)?);
    }
    Ok(items)
}

/// `dev SPACE DIR ADDR ITEMS`
#[tactic(auto, unfolding(crate::specs::Words::device_of))]
fn device_of(words: &[&[u8]]) -> Result<Entry, Reason>
    ensures value { result ≡ spec.device_of (map (λ w. w.now) words.now) }
    ensures formed { IfOk result IsFormedEntry }
{
    match words {
        [space, direction, address, items @ ..] => {
            if items.is_empty() || items.len() > 16 {
                return Err(Reason::WordCount);
            }
            let space = space_of(space)?;
            let direction = direction_of(direction)?;
            let address = quad(address)?;
            let items = items_of(space, items)?;
            Ok(Entry::Obey(Command::Dev(space, direction, address, items)))
        }
        _ => Err(Reason::WordCount),
    }
}

/// `icpt NAME` and `unicpt NAME`
#[tactic(auto, unfolding(crate::specs::Words::intercept_of))]
fn intercept_of(words: &[&[u8]]) -> Result<SvmName, Reason>
    ensures { result ≡ spec.intercept_of (map (λ w. w.now) words.now) }
{
    match words {
        [name] => intercept_name(name),
        _ => Err(Reason::WordCount),
    }
}

#[tactic(auto, unfolding(crate::specs::Words::set_of))]
fn set_of(words: &[&[u8]]) -> Result<Entry, Reason>
    ensures value { result ≡ spec.set_of (map (λ w. w.now) words.now) }
    ensures formed { IfOk result IsFormedEntry }
{
    let name = intercept_of(words)?;
    Ok(Entry::Obey(Command::Icpt(name)))
}

#[tactic(auto, unfolding(crate::specs::Words::clear_of))]
fn clear_of(words: &[&[u8]]) -> Result<Entry, Reason>
    ensures value { result ≡ spec.clear_of (map (λ w. w.now) words.now) }
    ensures formed { IfOk result IsFormedEntry }
{
    let name = intercept_of(words)?;
    Ok(Entry::Obey(Command::Unicpt(name)))
}

#[tactic(auto, unfolding(crate::specs::Words::ports_from))]
fn ports_from(low: &[u8], high: &[u8]) -> Result<Entry, Reason>
    ensures value { result ≡ spec.ports_from low.now high.now }
    ensures formed { IfOk result IsFormedEntry }
{
    let low = number_up_to(0xffff, low)?;
    let last = number_up_to(0xffff, high)?;
    if last < low {
        return Err(Reason::BadNumber);
    }
    Ok(Entry::Obey(Command::Ioport(low, last)))
}

/// `ioport LOW HIGH`
#[tactic(auto, unfolding(crate::specs::Words::ports_of))]
fn ports_of(words: &[&[u8]]) -> Result<Entry, Reason>
    ensures value { result ≡ spec.ports_of (map (λ w. w.now) words.now) }
    ensures formed { IfOk result IsFormedEntry }
{
    match words {
        [low, high] => ports_from(low, high),
        _ => Err(Reason::WordCount),
    }
}

#[tactic(auto, unfolding(crate::specs::Words::msr_with))]
fn msr_with(direction: &[u8], number: &[u8]) -> Result<Entry, Reason>
    ensures value { result ≡ spec.msr_with direction.now number.now }
    ensures formed { IfOk result IsFormedEntry }
{
    let direction = direction_of(direction)?;
    let number = number_up_to(0xffff_ffff, number)?;
    Ok(Entry::Obey(Command::Icptmsr(direction, number)))
}

/// `icptmsr DIR NUMBER`
#[tactic(auto, unfolding(crate::specs::Words::msr_of))]
fn msr_of(words: &[&[u8]]) -> Result<Entry, Reason>
    ensures value { result ≡ spec.msr_of (map (λ w. w.now) words.now) }
    ensures formed { IfOk result IsFormedEntry }
{
    match words {
        [direction, number] => msr_with(direction, number),
        _ => Err(Reason::WordCount),
    }
}

/// `batch N`
#[tactic(auto, unfolding(crate::specs::Words::batch_of))]
fn batch_of(words: &[&[u8]]) -> Result<Entry, Reason>
    ensures value { result ≡ spec.batch_of (map (λ w. w.now) words.now) }
    ensures formed { IfOk result IsFormedEntry }
{
    match words {
        [count] => match decimal_number(count) {
            None | Some(0) => Err(Reason::BadNumber),
            Some(n) if n > 1000 => Err(Reason::BadNumber),
            Some(n) => Ok(Entry::Obey(Command::Batch(n))),
        },
        _ => Err(Reason::WordCount),
    }
}

/// `run N`
#[tactic(auto, unfolding(crate::specs::Words::run_of))]
fn run_of(words: &[&[u8]]) -> Result<Entry, Reason>
    ensures value { result ≡ spec.run_of (map (λ w. w.now) words.now) }
    ensures formed { IfOk result IsFormedEntry }
{
    match words {
        [count] => match decimal_number(count) {
            None | Some(0) => Err(Reason::BadNumber),
            Some(n) if n > 1_000_000 => Err(Reason::TooMany),
            Some(n) => Ok(Entry::Obey(Command::Run(n))),
        },
        _ => Err(Reason::WordCount),
    }
}

/// `call`
#[tactic(auto, unfolding(crate::specs::Words::call_of))]
fn call_of(words: &[&[u8]]) -> Result<Entry, Reason>
    ensures value { result ≡ spec.call_of (map (λ w. w.now) words.now) }
    ensures formed { IfOk result IsFormedEntry }
{
    match words {
        [] => Ok(Entry::Obey(Command::Call)),
        _ => Err(Reason::WordCount),
    }
}

/// `show`
#[tactic(auto, unfolding(crate::specs::Words::show_of))]
fn show_of(words: &[&[u8]]) -> Result<Entry, Reason>
    ensures value { result ≡ spec.show_of (map (λ w. w.now) words.now) }
    ensures formed { IfOk result IsFormedEntry }
{
    match words {
        [] => Ok(Entry::Obey(Command::Show)),
        _ => Err(Reason::WordCount),
    }
}

/// A length, of one byte at least.
fn some_length(len: u64) -> Result<u64, Reason>
    ensures { result ≡ spec.some_length len }
{
    if len == 0 {
        Err(Reason::BadNumber)
    } else {
        Ok(len)
    }
}

#[tactic(auto, unfolding(crate::specs::Words::dump_at))]
fn dump_at(address: &[u8], len: &[u8]) -> Result<Entry, Reason>
    ensures value { result ≡ spec.dump_at address.now len.now }
    ensures formed { IfOk result IsFormedEntry }
{
    let address = quad(address)?;
    let len = some_length(number_up_to(0x1000, len)?)?;
    Ok(Entry::Obey(Command::Dump(address, len)))
}

/// `dump PA LEN`
#[tactic(auto, unfolding(crate::specs::Words::dump_of))]
fn dump_of(words: &[&[u8]]) -> Result<Entry, Reason>
    ensures value { result ≡ spec.dump_of (map (λ w. w.now) words.now) }
    ensures formed { IfOk result IsFormedEntry }
{
    match words {
        [address, len] => dump_at(address, len),
        _ => Err(Reason::WordCount),
    }
}

/// What a command says with these words; late tells that it is too late for RAM.
fn said_by(late: bool, name: CommandName, words: &[&[u8]]) -> Result<Entry, Reason>
    ensures value { result ≡ spec.said_by late name (map (λ w. w.now) words.now) }
    ensures formed { IfOk result IsFormedEntry }
{
    match name {
        CommandName::Ram => region_of(late, words),
        CommandName::Reg => register_of(words),
        CommandName::Seg => segment_of(words),
        CommandName::Table => table_of(words),
        CommandName::Poke => poke_of(words),
        CommandName::Dev => device_of(words),
        CommandName::Icpt => set_of(words),
        CommandName::Unicpt => clear_of(words),
        CommandName::Ioport => ports_of(words),
        CommandName::Icptmsr => msr_of(words),
        CommandName::Batch => batch_of(words),
        CommandName::Run => run_of(words),
        CommandName::Call => call_of(words),
        CommandName::Show => show_of(words),
        CommandName::Dump => dump_of(words),
    }
}

/// What a line of these words says; late tells that it is too late for RAM.
#[tactic(auto, unfolding(crate::specs::Words::entry_of))]
pub(crate) fn entry_of(late: bool, words: &[&[u8]]) -> Result<Entry, Reason>
    ensures value { result ≡ spec.entry_of late (map (λ w. w.now) words.now) }
    ensures formed { IfOk result IsFormedEntry }
{
    match words {
        [] => Err(Reason::UnknownCommand),
        [name, words @ ..] => {
            let name = command_name(name)?;
            said_by(late, name, words)
        }
    }
}
