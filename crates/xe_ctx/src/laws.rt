//! Laws of the definitions, each the contract of a function that does nothing.

ghost use Rattle.std.specs.Prelude.{◌≡◌, ◌<◌, ◌≤◌, ◌%◌, ◌^◌, ℕ, Some, length, slice_index_or, All};
ghost use Rattle.std.specs.List.{range_with_len};
ghost use Rattle.xe_ctx.specs.Chunks.{chunks, IsChunkSize, addresses_of, places_of};
ghost use Rattle.xe_ctx.specs.Memory.{pieces, piece_places, IsInPage, IsPieceOf};
ghost use Rattle.xe_ctx.specs.Next.{by_next};
ghost use Rattle.xe_ctx.specs.Part.{View, Ran};
ghost use Rattle.xe_ctx.specs.Run.{run};
ghost use Rattle.xe_ctx.specs.Supply.{Supply};
ghost use Rattle.xe_ctx.specs.Tree.{Tree, next_of};
ghost use Rattle.xe_ctx.specs.declared.chunk.Chunk.{Chunk};
ghost use Rattle.xe_ctx.specs.declared.stop.Finish.{Finish};

/// An instruction that is run request by request, each the next one after the answers so far, does
/// what its definition says as a whole.
pub fn runs_by_its_next_request()
    ensures { (n : ℕ) (t : Tree Finish) (v : View) (s : Supply) (r : Ran Finish) → by_next n (next_of t) v s ≡ Some r → r ≡ run t v s }
{}

/// Each access to a device by which memory outside RAM is reached has 1, 2, 4 or 8 bytes and lies at
/// a multiple of its size.
pub fn chunks_are_aligned()
    ensures size { (pa n i : ℕ) (d : Chunk) → i < length (chunks pa n) → IsChunkSize (slice_index_or (chunks pa n) i d).size }
    ensures aligned { (pa n i : ℕ) (d : Chunk) → i < length (chunks pa n) → (slice_index_or (chunks pa n) i d).pa % (slice_index_or (chunks pa n) i d).size ≡ 0 }
{}

/// The chunks of an access are its bytes, one chunk after another: each byte once and in order, by
/// its address and by its place in the access.
#[tactic(auto, using(crate::proofs::Cover::chunk_addresses, crate::proofs::Cover::chunk_places))]
pub fn chunks_cover_the_access()
    ensures addresses { (pa n : ℕ) → addresses_of (chunks pa n) ≡ range_with_len pa n }
    ensures places { (pa n : ℕ) → places_of (chunks pa n) ≡ range_with_len 0 n }
{}

/// The pieces of an access of at most 4096 bytes are its bytes, one piece after another: each byte
/// once and in order. No piece crosses the end of a page, and each lies at its place behind the
/// start of the access, where linear addresses have so many bits.
pub fn pieces_cover_the_access()
    ensures in_page { (bits la n : ℕ) → n ≤ 4096 → All IsInPage (pieces bits la n) }
    ensures at_its_place { (bits la n : ℕ) → la < 2 ^ bits → All (IsPieceOf bits la) (pieces bits la n) }
    ensures places { (bits la n : ℕ) → piece_places (pieces bits la n) ≡ range_with_len 0 n }
{}
