//! Laws of the keys and the partials of chunks.
ghost use Rattle.std.specs.Prelude.{◌≡◌, ℕ, List, ◌∷◌, Some, map};
ghost use Rattle.px_column.specs.Equality.{row_eq};
ghost use Rattle.px_column.specs.Prelude.{Kind, Series, Slot};
ghost use Rattle.px_cuts.specs.Chunks.{Chunk, partials_on};
ghost use Rattle.px_cuts.specs.Cut.{joined, chunk_keys, chunk_parts, rows_at};
ghost use Rattle.px_cuts.specs.Whole.{AreChunks, GroupOrder, IsMergeable, KeysAreWhole, ValuesAreWhole, final_keys, final_values};
ghost use Rattle.px_frame.specs.Parts.{parts, distinct};
ghost use Rattle.px_tree.specs.Tree.{Tree};

/// The keys of chunks, each told apart, are told apart as all keys are; and the parts of the chunks, grouped
/// by their keys, are the parts of the whole.
#[tactic(auto, using(crate::proofs::Keys::cut_keys, crate::proofs::Keys::cut_parts))]
pub fn parts_of_chunks_are_parts()
    ensures keys { (kss : List (List (List Slot))) → distinct row_eq (chunk_keys row_eq kss) ≡ distinct row_eq (joined kss) }
    ensures rows { (kss : List (List (List Slot))) → map (rows_at (chunk_parts row_eq 0 kss)) (parts row_eq (chunk_keys row_eq kss)) ≡ parts row_eq (joined kss) }
{}

/// A frame is cut into one chunk or more, of which some may have no row. The elementwise keys' columns of the
/// chunks, one chunk after another, are those of the frame, and the chunks' key rows, grouped, have the keys
/// of the frame's parts. The partials of a partition safe expression, which are its values on the chunks'
/// parts, merged for each group of the key rows, are its values on the parts of the frame. Both hold in order
/// of first appearance and in order of keys.
pub fn chunks_make_the_whole()
    ensures keys { (columns : List Series) (keys : List Tree) (lengths : List ℕ) (c : Chunk) (chunks : List Chunk)
        → AreChunks columns keys lengths c chunks → KeysAreWhole columns keys c chunks }
    ensures values { (columns : List Series) (keys : List Tree) (lengths : List ℕ) (c : Chunk) (chunks : List Chunk)
        → AreChunks columns keys lengths c chunks
        → (e : Tree) (k : Kind) (partials : List Slot) → IsMergeable columns e k → partials_on e columns 0 (c ∷ chunks) ≡ Some partials
        → ValuesAreWhole columns c chunks e k partials }
{}

/// Two cuts of one frame make the same keys, and their partials, merged, the same values, in either order of
/// the groups: what is finalised does not depend on the cut.
pub fn every_cut_makes_the_same()
    ensures keys { (columns : List Series) (keys : List Tree) (ls ms : List ℕ) (c d : Chunk) (cs ds : List Chunk)
        → AreChunks columns keys ls c cs → AreChunks columns keys ms d ds
        → (order : GroupOrder) → final_keys order c cs ≡ final_keys order d ds }
    ensures values { (columns : List Series) (keys : List Tree) (ls ms : List ℕ) (c d : Chunk) (cs ds : List Chunk)
        → AreChunks columns keys ls c cs → AreChunks columns keys ms d ds
        → (e : Tree) (k : Kind) (vs ws : List Slot) → IsMergeable columns e k → partials_on e columns 0 (c ∷ cs) ≡ Some vs → partials_on e columns 0 (d ∷ ds) ≡ Some ws
        → (order : GroupOrder) → final_values order c cs e k vs ≡ final_values order d ds e k ws }
{}
