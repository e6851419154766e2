//! Examples that the definitions compute to. A function here does nothing: its clauses are the examples.
ghost use Rattle.std.specs.Prelude.{◌≡◌, pos, negsuc, false, [], ◌∷◌, ◌++◌, Some, None, codes, length, option_and_then};
ghost use Rattle.serde_json.specs.Data.{null, member, no_members};
ghost use Rattle.serde_json.specs.Read.{read};
ghost use Rattle.px_column.specs.Prelude.{boolean, integer, text, bytes, list, no_slots, absent, present, lists, int64s};
ghost use Rattle.px_value.specs.declared.error.PxError.TheVariants.{ColumnNotFound, Duplicate, ComputeError, ShapeMismatch};
ghost use Rattle.px_value.specs.declared.error.ComputeWhy.TheVariants.{NoKey};
ghost use Rattle.px_frame.specs.External.{alone};
ghost use Rattle.px_frame.specs.Parts.{parts_of};
ghost use Rattle.px_tree.specs.Tree.{column, len};
ghost use Rattle.px_text.specs.Label.{line_of, bad_document_line};
ghost use Rattle.px_steps.specs.Plain.{columns_made, first_refusal};
ghost use Rattle.px_steps.specs.Reply.{IsNoDocument, IsRefusal, IsResult};
ghost use Rattle.px_tree.specs.Step.{group};
ghost use Rattle.px_document.specs.StepForm.{any_document_of};
ghost use Rattle.px_text.specs.Text.{kind_name, quoted, slot_text, text_of};
ghost use Rattle.px_vectors.specs.Worked.{num, int64_column, uint32_column, keyed, four_rows, null_keys, four_grouped, sum_column, sum_and_len, by_k};
ghost use Rattle.px_vectors.specs.WorkedDocument.{group_data, document_data, four_rows_doc, document_text};

/// The parts of rows by keys.
pub fn worked_parts()
    // The keys 7 9 7 7.
    ensures one_key { parts_of (int64_column (codes "k") (num 7 ∷ num 9 ∷ num 7 ∷ num 7 ∷ []) ∷ []) 4 ≡ (0 ∷ 2 ∷ 3 ∷ []) ∷ (1 ∷ []) ∷ [] }
    // The keys 7 9 7 7 beside 1 1 2 1.
    ensures two_keys { parts_of (keyed (num 7 ∷ num 9 ∷ num 7 ∷ num 7 ∷ []) (num 1 ∷ num 1 ∷ num 2 ∷ num 1 ∷ [])) 4 ≡ (0 ∷ 3 ∷ []) ∷ (1 ∷ []) ∷ (2 ∷ []) ∷ [] }
    // Nulls are one key.
    ensures null_keys { parts_of (int64_column (codes "k") (None ∷ num 1 ∷ None ∷ []) ∷ []) 3 ≡ (0 ∷ 2 ∷ []) ∷ (1 ∷ []) ∷ [] }
    ensures no_row { parts_of (int64_column (codes "k") [] ∷ []) 0 ≡ [] }
{}

/// The frames that the step makes which, for each k, sums x and counts the rows.
pub fn worked_steps()
    ensures four_rows { columns_made sum_and_len (alone four_rows) ≡ Some four_grouped }
    ensures no_row { columns_made sum_and_len (alone (keyed [] [])) ≡ Some (int64_column (codes "k") [] ∷ int64_column (codes "x") [] ∷ uint32_column (codes "len") [] ∷ []) }
    ensures null_keys { columns_made sum_and_len (alone null_keys) ≡ Some (int64_column (codes "k") (None ∷ num 1 ∷ []) ∷ int64_column (codes "x") (num 40 ∷ num 20 ∷ []) ∷ uint32_column (codes "len") (num 2 ∷ num 1 ∷ []) ∷ []) }
    // A null adds nothing to the sum, and one to the number of rows.
    ensures null_value { columns_made sum_and_len (alone (keyed (num 7 ∷ num 7 ∷ []) (None ∷ num 5 ∷ []))) ≡ Some (int64_column (codes "k") (num 7 ∷ []) ∷ int64_column (codes "x") (num 5 ∷ []) ∷ uint32_column (codes "len") (num 2 ∷ []) ∷ []) }
    // Nulls alone have the sum 0.
    ensures only_nulls { columns_made sum_and_len (alone (keyed (num 7 ∷ num 7 ∷ []) (None ∷ None ∷ []))) ≡ Some (int64_column (codes "k") (num 7 ∷ []) ∷ int64_column (codes "x") (num 0 ∷ []) ∷ uint32_column (codes "len") (num 2 ∷ []) ∷ []) }
    // A sum past the greatest Int64 goes on from the least.
    ensures wraps { columns_made sum_and_len (alone (keyed (num 7 ∷ num 7 ∷ []) (num 9223372036854775807 ∷ num 1 ∷ [])))
        ≡ Some (int64_column (codes "k") (num 7 ∷ []) ∷ int64_column (codes "x") (Some (integer (negsuc 9223372036854775807)) ∷ []) ∷ uint32_column (codes "len") (num 2 ∷ []) ∷ []) }
{}

/// The texts of frames, of types and of places.
pub fn worked_texts()
    ensures four_lines { text_of four_grouped 2
        ≡ codes "[\"k\",\"x\",\"len\"]" ++ 10 ∷ codes "[\"Int64\",\"Int64\",\"UInt32\"]" ++ 10 ∷ codes "[7,5,3]" ++ 10 ∷ codes "[9,1,1]" ++ 10 ∷ [] }
    ensures len { length (text_of four_grouped 2) ≡ 59 }
    ensures no_row { text_of (keyed [] []) 0 ≡ codes "[\"k\",\"x\"]" ++ 10 ∷ codes "[\"Int64\",\"Int64\"]" ++ 10 ∷ [] }
    ensures null { slot_text None ≡ codes "null" }
    ensures least { slot_text (Some (integer (negsuc 9223372036854775807))) ≡ codes "-9223372036854775808" }
    ensures boolean { slot_text (Some (boolean false)) ≡ codes "false" }
    ensures list { slot_text (Some (list (present (integer (pos 1)) (absent no_slots)))) ≡ codes "[1,null]" }
    ensures bytes { slot_text (Some (bytes (0 ∷ 171 ∷ 16 ∷ []))) ≡ codes "\"00ab10\"" }
    // A quotation mark, a backslash, the five short escapes, two other controls, and bytes as they are.
    ensures escapes { quoted (34 ∷ 92 ∷ 8 ∷ 9 ∷ 10 ∷ 12 ∷ 13 ∷ 1 ∷ 31 ∷ 97 ∷ 127 ∷ 195 ∷ 169 ∷ [])
        ≡ codes "\"\\\"\\\\\\b\\t\\n\\f\\r\\u0001\\u001fa" ++ 127 ∷ 195 ∷ 169 ∷ 34 ∷ [] }
    ensures nested { kind_name (lists (lists int64s)) ≡ codes "List(List(Int64))" }
{}

/// Why steps on the frame of four rows are refused.
pub fn worked_refusals()
    ensures none { first_refusal (sum_and_len) (alone four_rows) ≡ None }
    ensures no_key { first_refusal (group [] (len ∷ []) None) (alone four_rows) ≡ Some (ComputeError NoKey) }
    ensures missing { first_refusal (by_k (sum_column (codes "y") ∷ [])) (alone four_rows) ≡ Some (ColumnNotFound (codes "y")) }
    ensures repeated { first_refusal (by_k (sum_column (codes "k") ∷ [])) (alone four_rows) ≡ Some (Duplicate (codes "k")) }
    ensures two_lengths { first_refusal (by_k (len ∷ len ∷ [])) (alone four_rows) ≡ Some (Duplicate (codes "len")) }
    // No key, before a missing column.
    ensures no_key_first { first_refusal (group [] (sum_column (codes "y") ∷ []) None) (alone four_rows) ≡ Some (ComputeError NoKey) }
    // A missing key, before a missing column of an aggregation.
    ensures key_first { first_refusal (group (column (codes "z") ∷ []) (sum_column (codes "y") ∷ []) None) (alone four_rows) ≡ Some (ColumnNotFound (codes "z")) }
    // A missing column, before a name that stands twice.
    ensures missing_first { first_refusal (by_k (sum_column (codes "k") ∷ sum_column (codes "y") ∷ [])) (alone four_rows) ≡ Some (ColumnNotFound (codes "y")) }
{}

/// The lines that tell of faults.
pub fn worked_lines()
    ensures missing { line_of (ColumnNotFound (codes "y")) ≡ codes "error: ColumnNotFound(\"y\")" ++ 10 ∷ [] }
    ensures repeated { line_of (Duplicate (codes "k")) ≡ codes "error: Duplicate(\"k\")" ++ 10 ∷ [] }
    ensures no_key { line_of (ComputeError NoKey) ≡ codes "error: ComputeError(NoKey)" ++ 10 ∷ [] }
    ensures shape { line_of ShapeMismatch ≡ codes "error: ShapeMismatch" ++ 10 ∷ [] }
    ensures bad { bad_document_line ≡ codes "error: BadDocument" ++ 10 ∷ [] }
{}

/// What documents say, and what is written for texts.
#[tactic(auto, unfolding(px_document::specs::OnLiterals::px_document_on_literals))]
pub fn worked_documents()
    ensures four_rows { any_document_of (document_data (λ ms. ms) (group_data no_members)) ≡ Some (four_rows_doc (codes "x")) }
    // One member more than there are to be.
    ensures further { any_document_of (document_data (member (codes "more") null) (group_data no_members)) ≡ None }
    ensures further_in_step { any_document_of (document_data (λ ms. ms) (group_data (member (codes "more") null no_members))) ≡ None }
    ensures read { option_and_then any_document_of (read (document_text (codes "x"))) ≡ Some (four_rows_doc (codes "x")) }
    ensures result { IsResult (document_text (codes "x")) (text_of four_grouped 2) }
    ensures refusal { IsRefusal (document_text (codes "y")) (codes "error: ColumnNotFound(\"y\")" ++ 10 ∷ []) }
    ensures no_document { IsNoDocument (codes "{\"columns\":[]}") (codes "error: BadDocument" ++ 10 ∷ []) }
{}
