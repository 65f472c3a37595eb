//! The rights of a page, judged over all entries of a walk together, and the page fault.

ghost use Rattle.std.specs.Prelude.{◌≡◌, ◌<◌};
ghost use Rattle.xe_walk.specs.Rights.{limiting, all_have, some_has, has_xd, is_user, allows, error_code, cause_code, fault_at};
ghost use Rattle.xe_walk.specs.Rights.{user_may, supervisor_may, is_user_page, is_writable, is_executable, supervisor_may_touch_user_page};

use crate::entry::Used;
use crate::format::{bit, pointers};
use xe_base::access::PAGE_FAULT;
use xe_base::{Cpu, Fault};

/// What an access is for. One that is neither a write nor a fetch reads.
#[derive(Clone, Copy, PartialEq, Eq, Debug, Default)]
pub struct Kind {
    pub write: bool,
    pub fetch: bool,
    /// An implicit access to a descriptor table or the TSS: at any level it is a supervisor's.
    pub system: bool,
}

/// Why a translation is a page fault.
#[derive(Clone, Copy, PartialEq, Eq, Debug)]
pub enum Why {
    /// An entry has P clear.
    NotPresent,
    /// A present entry has a reserved bit set.
    Reserved,
    /// All entries together forbid the access.
    Rights,
}

/// Whether an execute-disable bit that is set forbids fetches: CR4.PAE and EFER.NXE.
fn has_xd(cpu: &Cpu) -> bool
    ensures { result ≡ has_xd cpu.now }
{
    bit(cpu.cr4, 5) && bit(cpu.efer, 11)
}

/// Whether an access is a user access.
fn is_user(cpu: &Cpu, kind: Kind) -> bool
    ensures { result ≡ is_user cpu.now kind }
{
    cpu.cpl == 3 && !kind.system
}

/// Whether each entry has the bit.
fn all_have(at: u32, entries: &[Used]) -> bool
    requires { at < 64 }
    ensures { result ≡ all_have at entries.now }
{
    for entry in entries {
        if !bit(entry.value, at) {
            return false;
        }
    }
    true
}

/// Whether some entry has the bit.
fn some_has(at: u32, entries: &[Used]) -> bool
    requires { at < 64 }
    ensures { result ≡ some_has at entries.now }
{
    for entry in entries {
        if bit(entry.value, at) {
            return true;
        }
    }
    false
}

/// The entries of a walk that have rights, accessed and dirty bits: all but PAE directory pointers.
pub fn limiting<'a>(cpu: &Cpu, used: &'a [Used]) -> &'a [Used]
    ensures { result.now ≡ limiting cpu.now used.now }
{
    let first = pointers(cpu).min(used.len());
    &used[first..]
}

/// Whether user accesses may reach the page.
fn is_user_page(entries: &[Used]) -> bool
    ensures { result ≡ is_user_page entries.now }
{
    all_have(2, entries)
}

/// Whether writes may reach the page.
fn is_writable(entries: &[Used]) -> bool
    ensures { result ≡ is_writable entries.now }
{
    all_have(1, entries)
}

/// Whether XD of no entry forbids fetches.
fn is_executable(cpu: &Cpu, entries: &[Used]) -> bool
    ensures { result ≡ is_executable cpu.now entries.now }
{
    !(has_xd(cpu) && some_has(63, entries))
}

/// Whether a user access may go to the page.
fn user_may(cpu: &Cpu, kind: Kind, entries: &[Used]) -> bool
    ensures { result ≡ user_may cpu.now kind entries.now }
{
    is_user_page(entries)
        && (!kind.write || is_writable(entries))
        && (!kind.fetch || is_executable(cpu, entries))
}

/// Whether SMEP and SMAP let a supervisor's access to a user page pass.
fn supervisor_may_touch_user_page(cpu: &Cpu, kind: Kind) -> bool
    ensures { result ≡ supervisor_may_touch_user_page cpu.now kind }
{
    if kind.fetch {
        !bit(cpu.cr4, 20)
    } else {
        !bit(cpu.cr4, 21) || bit(cpu.rflags, 18) && !kind.system
    }
}

/// Whether a supervisor's access may go to the page.
fn supervisor_may(cpu: &Cpu, kind: Kind, entries: &[Used]) -> bool
    ensures { result ≡ supervisor_may cpu.now kind entries.now }
{
    (!kind.write || !bit(cpu.cr0, 16) || is_writable(entries))
        && (!kind.fetch || is_executable(cpu, entries))
        && (!is_user_page(entries) || supervisor_may_touch_user_page(cpu, kind))
}

/// Whether the rights of these entries together allow an access.
#[tactic(auto, unfolding(crate::specs::Rights::allows))]
pub(crate) fn allows(cpu: &Cpu, kind: Kind, entries: &[Used]) -> bool
    ensures { result ≡ allows cpu.now kind entries.now }
{
    if is_user(cpu, kind) {
        user_may(cpu, kind, entries)
    } else {
        supervisor_may(cpu, kind, entries)
    }
}

/// The bits P and RSVD of an error code.
fn cause_code(why: Why) -> u32
    ensures value { result ≡ cause_code why }
    ensures low { result < 10 }
{
    match why {
        Why::NotPresent => 0,
        Why::Reserved => 9,
        Why::Rights => 1,
    }
}

/// The error code of a page fault.
fn error_code(cpu: &Cpu, kind: Kind, why: Why) -> u32
    ensures { result ≡ error_code cpu.now kind why }
{
    let w = if kind.write { 2 } else { 0 };
    let u = if is_user(cpu, kind) { 4 } else { 0 };
    let i = if kind.fetch && (has_xd(cpu) || bit(cpu.cr4, 20)) {
        16
    } else {
        0
    };
    cause_code(why) + w + u + i
}

/// #PF at a linear address, which CR2 is to hold.
#[tactic(auto, unfolding(crate::specs::Rights::fault_at))]
pub(crate) fn fault_at(cpu: &Cpu, la: u64, kind: Kind, why: Why) -> Fault
    ensures { result ≡ fault_at cpu.now la kind why }
{
    Fault {
        vector: PAGE_FAULT,
        code: Some(error_code(cpu, kind, why)),
        cr2: Some(la),
    }
}
