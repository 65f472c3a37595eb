//! The top call: from words and a text to what is written and a status.
ghost use Rattle.std.specs.Prelude.{◌≡◌, ◌≢◌, ◌+◌, ◌≤◌, ◌⊎◌, List, [], map, drop, string_bytes, Option, Some, None, Ok, IfSome, IsSome};
ghost use Rattle.std.specs.Result.{IsErr};
ghost use Rattle.xe_mem.specs.Layout.{IsLayout};
ghost use Rattle.xe_scene.specs.Scene.{scene, text_most};
ghost use Rattle.xe_scene.specs.Faults.{content_of};
ghost use Rattle.xe_run.specs.Told.{followed_by, is_told, Rose, Quiet};
ghost use Rattle.xe_run.specs.Output.{Output, Answers, answer, output, mode_of, usage, IsWhole};

use crate::mode::{Mode, mode_of};
use crate::outside::{Sink, Source};
use crate::play::{PlayFault, play};
use crate::refusal::refusal_line;
use crate::status::Status;
use crate::whole_text::{ReadError, read_text};
use std::alloc::Global;
use xe_scene::{Scene, SceneFault, read_scene};

/// Writes all that there is to say, in one call.
fn say<K: Sink>(bytes: &[u8], status: Status, out: &mut K) -> Status
    requires { IsWhole status }
    ensures output { Answers result (record { bytes = bytes.now; status = status }) (K.written out.old) (K.written out.new) }
    ensures answer { (result ≡ status) ⊎ (result ≡ Status.WriteFault) }
    ensures write_fault { result ≡ Status.WriteFault → Rose (K.faults out.old) (K.faults out.new) }
    ensures count { K.faults out.old ≤ K.faults out.new }
{
    match out.write(bytes) {
        Ok(()) => status,
        Err(_) => Status::WriteFault,
    }
}

/// Runs a scene and writes its trace.
fn run_scene<K: Sink>(alloc: Global, scene: &Scene, out: &mut K) -> Status
    requires { IsLayout scene.now.regions.items }
    ensures output { Answers result (answer Mode.Run (Ok (content_of scene.now))) (K.written out.old) (K.written out.new) }
    ensures not_usage { result ≢ Status.Usage }
    ensures no_read_fault { result ≢ Status.ReadFault }
    ensures write_fault { result ≡ Status.WriteFault → Rose (K.faults out.old) (K.faults out.new) }
    ensures count { K.faults out.old ≤ K.faults out.new }
{
    match play(alloc, scene, out) {
        Ok(()) => Status::Ok,
        Err(PlayFault::Write) => Status::WriteFault,
        Err(PlayFault::NoMemory) => Status::NoMemory,
    }
}

/// Answers a text.
fn answer_text<K: Sink>(alloc: Global, mode: Mode, text: &[u8], out: &mut K) -> Status
    ensures output { Answers result (answer mode (scene text.now)) (K.written out.old) (K.written out.new) }
    ensures not_usage { result ≢ Status.Usage }
    ensures no_read_fault { result ≢ Status.ReadFault }
    ensures write_fault { result ≡ Status.WriteFault → Rose (K.faults out.old) (K.faults out.new) }
    ensures count { K.faults out.old ≤ K.faults out.new }
{
    match read_scene(alloc, text) {
        Ok(scene) => match mode {
            Mode::Run => run_scene(alloc, &scene, out),
            Mode::Check => say(b"ok\n", Status::Ok, out),
        },
        Err(SceneFault::NoMemory) => Status::NoMemory,
        Err(SceneFault::Line { number, reason }) => say(
            refusal_line(number, reason).as_bytes(),
            Status::Refused,
            out,
        ),
    }
}

/// Reads a text and answers it.
fn answer_source<S: Source, K: Sink>(alloc: Global, mode: Mode, src: &mut S, out: &mut K) -> Status
    ensures output { IfSome (S.left src.old) (λ left. Answers result (answer mode (scene left)) (K.written out.old) (K.written out.new)) }
    ensures not_usage { result ≢ Status.Usage }
    ensures read_fault { result ≡ Status.ReadFault → Rose (S.faults src.old) (S.faults src.new) }
    ensures write_fault { result ≡ Status.WriteFault → Rose (K.faults out.old) (K.faults out.new) }
    ensures read_fault_writes_nothing { result ≡ Status.ReadFault → K.written out.new ≡ K.written out.old }
    ensures no_memory_writes_nothing { result ≡ Status.NoMemory → K.written out.new ≡ K.written out.old }
    ensures reads_all { IfSome (S.left src.old) (λ left. result ≡ Status.Ok → S.left src.new ≡ Some []) }
    ensures reads_enough { IfSome (S.left src.old) (λ left. result ≡ Status.Refused → S.left src.new ≡ Some (drop (text_most + 1) left)) }
    ensures source_told { is_told (S.left src.new) ≡ is_told (S.left src.old) }
    ensures sink_told { is_told (K.written out.new) ≡ is_told (K.written out.old) }
    ensures source_count { S.faults src.old ≤ S.faults src.new }
    ensures sink_count { K.faults out.old ≤ K.faults out.new }
{
    match read_text(alloc, src) {
        Ok(text) => answer_text(alloc, mode, &text, out),
        Err(ReadError::Fault) => Status::ReadFault,
        Err(ReadError::NoMemory) => Status::NoMemory,
    }
}

/// Does what the words ask for. `run` reads the source to its end as a scenario text, runs its
/// scene, and writes the trace to the sink, line by line; `check` reads the text, and writes `ok`.
///
/// Each line is written in one call. Nothing is written before the whole text was read and accepted.
/// Want of memory may be answered wherever nothing was written yet; no clause says that it was
/// really refused.
pub fn run<S: Source, K: Sink>(
    alloc: Global,
    words: &Vec<String>,
    src: &mut S,
    out: &mut K,
) -> Status
    // While source and sink tell their bytes and neither count of faults rose, the output of the words and the bytes left is
    // written, and the status is its status; unless memory was wanted.
    ensures headline { IfSome (S.left src.old) (λ left.
        Quiet (S.faults src.old) (S.faults src.new) → Quiet (K.faults out.old) (K.faults out.new) →
        let o = output (map string_bytes words.now.items) left in
        ((K.written out.new ≡ followed_by (K.written out.old) o.bytes) × (result ≡ o.status))
        ⊎ ((result ≡ Status.NoMemory) × (K.written out.new ≡ K.written out.old))) }

    // What each status says of what was written, whether a count rose or not.
    ensures output { IfSome (S.left src.old) (λ left. Answers result (output (map string_bytes words.now.items) left) (K.written out.old) (K.written out.new)) }

    // Where the words ask for nothing that there is, nothing is read and the usage is written, for every source.
    ensures usage { result ≡ Status.Usage → mode_of (map string_bytes words.now.items) ≡ None }
    ensures usage_written { mode_of (map string_bytes words.now.items) ≡ None → Answers result usage (K.written out.old) (K.written out.new) }
    ensures usage_comes { mode_of (map string_bytes words.now.items) ≡ None → Quiet (K.faults out.old) (K.faults out.new) → (result ≡ Status.Usage) ⊎ (result ≡ Status.NoMemory) }
    ensures usage_reads_nothing { mode_of (map string_bytes words.now.items) ≡ None → src.new ≡ src.old }

    // A text is refused only where it is bad.
    ensures refused { IfSome (S.left src.old) (λ left. result ≡ Status.Refused → IsErr (scene left)) }
    ensures refused_words { result ≡ Status.Refused → IsSome (mode_of (map string_bytes words.now.items)) }

    // A fault is answered only where it came.
    ensures read_fault { result ≡ Status.ReadFault → Rose (S.faults src.old) (S.faults src.new) }
    ensures read_fault_words { result ≡ Status.ReadFault → IsSome (mode_of (map string_bytes words.now.items)) }
    ensures read_fault_writes_nothing { result ≡ Status.ReadFault → K.written out.new ≡ K.written out.old }
    ensures write_fault { result ≡ Status.WriteFault → Rose (K.faults out.old) (K.faults out.new) }
    ensures no_memory_writes_nothing { result ≡ Status.NoMemory → K.written out.new ≡ K.written out.old }

    // An accepted text was read to its end, a refused one too, unless it is longer than a text may be: then one byte more
    // was taken than that.
    ensures reads_all { IfSome (S.left src.old) (λ left. result ≡ Status.Ok → S.left src.new ≡ Some []) }
    ensures reads_enough { IfSome (S.left src.old) (λ left. result ≡ Status.Refused → S.left src.new ≡ Some (drop (text_most + 1) left)) }

    ensures source_told { is_told (S.left src.new) ≡ is_told (S.left src.old) }
    ensures sink_told { is_told (K.written out.new) ≡ is_told (K.written out.old) }
    ensures source_count { S.faults src.old ≤ S.faults src.new }
    ensures sink_count { K.faults out.old ≤ K.faults out.new }
{
    match mode_of(words) {
        Some(mode) => answer_source(alloc, mode, src, out),
        None => say(
            b"usage: x86emu run | check | gen SEED COUNT\n",
            Status::Usage,
            out,
        ),
    }
}
