//! Examples of steps of every kind that the definitions compute to. A function here does nothing: its
//! clauses are the examples.
ghost use Rattle.std.specs.Prelude.{◌≡◌, pos, negsuc, true, false, [], ◌∷◌, Some, None, codes};
ghost use Rattle.px_column.specs.Prelude.{integer, list, slots, booleans, int8s, int32s, int64s, uint8s, uint32s, strings, lists};
ghost use Rattle.px_value.specs.declared.cast_options.CastOptions.TheVariants.{Strict};
ghost use Rattle.px_value.specs.declared.error.ComputeWhy.TheVariants.{AggLiteral, AggScalar, SingleIndex, NotPartitionSafe, SliceArgument, NullIndex, RangeBound, WindowLength, ChunkLengths};
ghost use Rattle.px_value.specs.declared.error.InvalidWhy.TheVariants.{WindowOnGroups, AggAboveImplode, ScalarOnGroups, ListKey, RangeType, Types, CastLost};
ghost use Rattle.px_value.specs.declared.error.PxError.TheVariants.{ColumnNotFound, Duplicate, InvalidOperation, ComputeError, OutOfBounds, ShapeMismatch, SchemaMismatch};
ghost use Rattle.px_value.specs.declared.method.GroupByMethod.TheVariants as method;
ghost use Rattle.px_value.specs.declared.operator.Operator.TheVariants.{Plus, NotEq, Minus};
ghost use Rattle.px_frame.specs.External.{alone};
ghost use Rattle.px_tree.specs.Tree.{by_name, single, range, series, no_trees, one_tree, no_order, ordered, column, literal, binary, cast, function, filter, slice, gather, sort, sort_by, agg, len, window};
ghost use Rattle.px_tree.specs.declared.function.FunctionExpr.TheVariants.{IsIn};
ghost use Rattle.px_tree.specs.declared.window.WindowMapping.TheVariants.{GroupsToRows, Join, Explode};
ghost use Rattle.px_steps.specs.Plain.{columns_made, first_refusal, plain_on, step_faults};
ghost use Rattle.px_tree.specs.Step as step;
ghost use Rattle.px_tree.specs.Step.{select, group};
ghost use Rattle.px_vectors.specs.Examples.{nums, word, numbers, truth, column_of, four, k, x, y, int, no_value, null_int, greater, sum_of, max_of, first_of, explode, reversed, rising, falling, over_k, by_key, invalid, failed, sales, sales_report};
ghost use Rattle.px_vectors.specs.Worked.{num};

/// Windows over the parts by a key.
pub fn window_examples()
    ensures sum_at_rows { columns_made (select (over_k (sum_of x) GroupsToRows ∷ [])) four ≡ Some (column_of (codes "x") int64s (nums (5 ∷ 1 ∷ 5 ∷ 5 ∷ [])) ∷ []) }
    ensures one_after_another { columns_made (select (over_k x Explode ∷ [])) four ≡ Some (column_of (codes "x") int64s (nums (0 ∷ 2 ∷ 3 ∷ 1 ∷ [])) ∷ []) }
    ensures joined { columns_made (select (over_k (filter x (greater x 0)) Join ∷ [])) four
        ≡ Some (column_of (codes "x") (lists int64s) (numbers (2 ∷ 3 ∷ []) ∷ numbers (1 ∷ []) ∷ numbers (2 ∷ 3 ∷ []) ∷ numbers (2 ∷ 3 ∷ []) ∷ []) ∷ []) }
    ensures reversed { columns_made (select (over_k (reversed x) GroupsToRows ∷ [])) four ≡ Some (column_of (codes "x") int64s (nums (3 ∷ 1 ∷ 2 ∷ 0 ∷ [])) ∷ []) }
    ensures ordered { columns_made (select (window x (one_tree k no_trees) (ordered x falling) Explode ∷ [])) four ≡ Some (column_of (codes "x") int64s (nums (3 ∷ 2 ∷ 0 ∷ 1 ∷ [])) ∷ []) }
    // A part's function has to have as many rows as the part.
    ensures lengths { step_faults (select (over_k (filter (explode (column (codes "l"))) (greater (explode (column (codes "l"))) 0)) GroupsToRows ∷ []))
        (alone (column_of (codes "k") int64s (nums (1 ∷ 1 ∷ 2 ∷ 2 ∷ [])) ∷ column_of (codes "l") (lists int64s) (numbers (1 ∷ 2 ∷ []) ∷ numbers (3 ∷ []) ∷ numbers (0 ∷ []) ∷ numbers (5 ∷ []) ∷ []) ∷ []))
        ≡ ComputeError WindowLength ∷ [] }
{}

/// What group steps make of expressions that are more than a sum.
pub fn group_examples()
    // The sorted rows of a, and beside them b as it stands.
    ensures sorted_beside { columns_made (by_key (column (codes "g")) (binary (sort (column (codes "a")) rising) Plus (column (codes "b")) ∷ []))
        (alone (column_of (codes "g") int64s (nums (1 ∷ 1 ∷ 1 ∷ [])) ∷ column_of (codes "a") int64s (nums (3 ∷ 1 ∷ 2 ∷ [])) ∷ column_of (codes "b") int64s (nums (10 ∷ 20 ∷ 30 ∷ [])) ∷ []))
        ≡ Some (column_of (codes "g") int64s (nums (1 ∷ [])) ∷ column_of (codes "a") (lists int64s) (numbers (11 ∷ 22 ∷ 33 ∷ []) ∷ []) ∷ []) }
    // The sum of small integers does not wrap in their own type.
    ensures wide_sum { columns_made (by_key k (sum_of (column (codes "u")) ∷ []))
        (alone (column_of (codes "k") int64s (nums (1 ∷ 1 ∷ [])) ∷ column_of (codes "u") uint8s (nums (200 ∷ 100 ∷ [])) ∷ []))
        ≡ Some (column_of (codes "k") int64s (nums (1 ∷ [])) ∷ column_of (codes "u") int64s (nums (300 ∷ [])) ∷ []) }
    // One row that is left is a list of one row.
    ensures one_row_list { columns_made (by_key k (filter x (greater x 0) ∷ [])) (alone (column_of (codes "k") int64s (nums (1 ∷ [])) ∷ column_of (codes "x") int64s (nums (4 ∷ [])) ∷ []))
        ≡ Some (column_of (codes "k") int64s (nums (1 ∷ [])) ∷ column_of (codes "x") (lists int64s) (numbers (4 ∷ []) ∷ []) ∷ []) }
    // A cast reads the rows that are left, and no others.
    ensures cast_after_filter { columns_made (by_key k (cast (filter (column (codes "s")) (binary (column (codes "s")) NotEq (literal (single strings (word (codes "x")))))) int64s Strict ∷ []))
        (alone (column_of (codes "k") int64s (nums (1 ∷ 1 ∷ [])) ∷ column_of (codes "s") strings (word (codes "7") ∷ word (codes "x") ∷ []) ∷ []))
        ≡ Some (column_of (codes "k") int64s (nums (1 ∷ [])) ∷ column_of (codes "s") (lists int64s) (numbers (7 ∷ []) ∷ []) ∷ []) }
    // Each group takes the row that its own index names.
    ensures own_index { columns_made (by_key k (gather x (first_of (column (codes "i"))) true ∷ []))
        (alone (column_of (codes "k") int64s (nums (1 ∷ 1 ∷ 1 ∷ 2 ∷ 2 ∷ [])) ∷ column_of (codes "x") int64s (nums (10 ∷ 20 ∷ 30 ∷ 40 ∷ 50 ∷ []))
        ∷ column_of (codes "i") int64s (nums (2 ∷ 2 ∷ 2 ∷ 0 ∷ 0 ∷ [])) ∷ []))
        ≡ Some (column_of (codes "k") int64s (nums (1 ∷ 2 ∷ [])) ∷ column_of (codes "x") int64s (nums (30 ∷ 40 ∷ [])) ∷ []) }
    ensures index_past_end { step_faults (by_key k (gather x (int 2) true ∷ []))
        (alone (column_of (codes "k") int64s (nums (1 ∷ 1 ∷ 1 ∷ 2 ∷ 2 ∷ [])) ∷ column_of (codes "x") int64s (nums (10 ∷ 20 ∷ 30 ∷ 40 ∷ 50 ∷ [])) ∷ []))
        ≡ OutOfBounds ∷ [] }
    ensures from_the_end { columns_made (by_key k (gather x (literal (single int64s (Some (integer (negsuc 0))))) true ∷ [])) four
        ≡ Some (column_of (codes "k") int64s (nums (7 ∷ 9 ∷ [])) ∷ column_of (codes "x") int64s (nums (3 ∷ 1 ∷ [])) ∷ []) }
    ensures among { columns_made (by_key k (function (one_tree x (one_tree (literal (series (column_of (codes "s") int64s (nums (0 ∷ 1 ∷ 3 ∷ []))))) no_trees)) (by_name IsIn) ∷ [])) four
        ≡ Some (column_of (codes "k") int64s (nums (7 ∷ 9 ∷ []))
        ∷ column_of (codes "x") (lists booleans) (Some (list (slots (truth true ∷ truth false ∷ truth true ∷ []))) ∷ Some (list (slots (truth true ∷ []))) ∷ []) ∷ []) }
    ensures by_no_key { columns_made (by_key k (sort_by x no_trees (record { descending = []; nulls_last = [] }) ∷ [])) four
        ≡ Some (column_of (codes "k") int64s (nums (7 ∷ 9 ∷ [])) ∷ column_of (codes "x") (lists int64s) (numbers (0 ∷ 2 ∷ 3 ∷ []) ∷ numbers (1 ∷ []) ∷ []) ∷ []) }
    // All rows from the second on.
    ensures computed_slice { columns_made (by_key k (slice x (int 1) (binary len Minus (literal (single uint32s (num 1)))) ∷ [])) four
        ≡ Some (column_of (codes "k") int64s (nums (7 ∷ 9 ∷ [])) ∷ column_of (codes "x") (lists int64s) (numbers (2 ∷ 3 ∷ []) ∷ numbers [] ∷ []) ∷ []) }
    // Chunks change nothing.
    ensures chunks { columns_made (group (k ∷ []) (sum_of x ∷ len ∷ []) (Some (2 ∷ 0 ∷ 2 ∷ []))) four
        ≡ Some (column_of (codes "k") int64s (nums (7 ∷ 9 ∷ [])) ∷ column_of (codes "x") int64s (nums (5 ∷ 1 ∷ [])) ∷ column_of (codes "len") uint32s (nums (3 ∷ 1 ∷ [])) ∷ []) }
{}

/// What select and filter steps make, one after another, and of columns beside the frame.
pub fn select_examples()
    // A unit alone is one row.
    ensures unit_alone { columns_made (select (sum_of (int 5) ∷ [])) four ≡ Some (column_of (codes "literal") int64s (nums (5 ∷ [])) ∷ []) }
    // A unit beside a list stands at each row.
    ensures unit_beside_list { columns_made (select (x ∷ int 5 ∷ [])) four ≡ Some (column_of (codes "x") int64s (nums (0 ∷ 1 ∷ 2 ∷ 3 ∷ [])) ∷ column_of (codes "literal") int64s (nums (5 ∷ 5 ∷ 5 ∷ 5 ∷ [])) ∷ []) }
    ensures no_expression { columns_made (select []) four ≡ Some [] }
    ensures integers { columns_made (select (literal (range (negsuc 1) (pos 2) int32s) ∷ [])) four
        ≡ Some (column_of (codes "literal") int32s (Some (integer (negsuc 1)) ∷ Some (integer (negsuc 0)) ∷ num 0 ∷ num 1 ∷ []) ∷ []) }
    ensures no_integers { columns_made (select (literal (range (pos 3) (pos 3) int64s) ∷ [])) four ≡ Some (column_of (codes "literal") int64s [] ∷ []) }
    ensures report { plain_on sales_report sales
        ≡ Some (alone (column_of (codes "region") strings (word (codes "north") ∷ word (codes "south") ∷ []) ∷ column_of (codes "total") int64s (nums (120 ∷ 60 ∷ []))
        ∷ column_of (codes "top") int64s (nums (50 ∷ 60 ∷ [])) ∷ column_of (codes "len") uint32s (nums (3 ∷ 1 ∷ [])) ∷ [])) }
    ensures external { columns_made (select (binary (column (codes "e")) Plus x ∷ [])) (record four { external = column_of (codes "e") int64s (nums (5 ∷ 6 ∷ 7 ∷ 8 ∷ [])) ∷ [] })
        ≡ Some (column_of (codes "e") int64s (nums (5 ∷ 7 ∷ 9 ∷ 11 ∷ [])) ∷ []) }
    // After a filter the frame has another height than the column beside it.
    ensures external_misfits { step_faults (select (column (codes "e") ∷ []))
        (record { columns = column_of (codes "x") int64s (nums (1 ∷ 2 ∷ 3 ∷ [])) ∷ []; external = column_of (codes "e") int64s (nums (5 ∷ 6 ∷ 7 ∷ 8 ∷ [])) ∷ [] })
        ≡ ShapeMismatch ∷ [] }
{}

/// The first refusals of steps on the four rows.
pub fn refusal_examples()
    ensures unknown { first_refusal (select (y ∷ [])) four ≡ Some (ColumnNotFound (codes "y")) }
    ensures repeated { first_refusal (select (x ∷ x ∷ [])) four ≡ Some (Duplicate (codes "x")) }
    ensures window_on_groups { first_refusal (by_key k (over_k x GroupsToRows ∷ [])) four ≡ invalid WindowOnGroups }
    ensures above_implode { first_refusal (by_key k (sum_of (agg method.Implode x) ∷ [])) four ≡ invalid AggAboveImplode }
    ensures slice_of_one { first_refusal (by_key k (slice (max_of x) (int 0) (int 1) ∷ [])) four ≡ invalid ScalarOnGroups }
    ensures sorted_lists { first_refusal (select (sort (literal (series (column_of (codes "s") (lists int64s) []))) rising ∷ [])) four ≡ invalid ListKey }
    ensures small_range { first_refusal (select (literal (range (pos 0) (pos 3) int8s) ∷ [])) four ≡ invalid RangeType }
    ensures two_types { first_refusal (select (binary x Plus (literal (single int32s (num 1))) ∷ [])) four ≡ invalid Types }
    ensures sum_of_one { first_refusal (by_key k (sum_of (max_of x) ∷ [])) four ≡ failed AggScalar }
    ensures sum_of_sum { first_refusal (by_key k (sum_of (sum_of x) ∷ [])) four ≡ failed AggScalar }
    ensures sum_of_literal { first_refusal (by_key k (sum_of (int 5) ∷ [])) four ≡ failed AggLiteral }
    ensures many_indices { first_refusal (by_key k (gather x x true ∷ [])) four ≡ failed SingleIndex }
    ensures not_merged { first_refusal (group (k ∷ []) (agg method.NUnique x ∷ []) (Some (4 ∷ []))) four ≡ failed NotPartitionSafe }
    ensures short_chunks { first_refusal (group (k ∷ []) (sum_of x ∷ []) (Some (2 ∷ 1 ∷ []))) four ≡ failed ChunkLengths }
    ensures mask_of_numbers { first_refusal (step.filter x) four ≡ Some SchemaMismatch }
    ensures list_key { first_refusal (by_key (literal (series (column_of (codes "s") (lists int64s) []))) (len ∷ [])) four ≡ invalid ListKey }
{}

/// The faults of steps on the four rows that are not refused.
pub fn fault_examples()
    ensures lost { step_faults (select (cast (literal (single strings (word (codes "x")))) int64s Strict ∷ [])) four ≡ InvalidOperation CastLost ∷ [] }
    ensures no_offset { step_faults (select (slice x null_int (int 1) ∷ [])) four ≡ ComputeError SliceArgument ∷ [] }
    // Once for each of the two groups.
    ensures no_index { step_faults (by_key k (gather x null_int true ∷ [])) four ≡ ComputeError NullIndex ∷ ComputeError NullIndex ∷ [] }
    ensures high_bound { step_faults (select (literal (range (pos 0) (pos 2147483648) int32s) ∷ [])) four ≡ ComputeError RangeBound ∷ [] }
    ensures two_lengths { step_faults (select (binary x Plus (literal (range (pos 0) (pos 3) int64s)) ∷ [])) four ≡ ShapeMismatch ∷ [] }
    ensures two_heights { step_faults (select (x ∷ literal (range (pos 0) (pos 3) int64s) ∷ [])) four ≡ ShapeMismatch ∷ [] }
    ensures index_past_end { step_faults (select (gather x (int 4) true ∷ [])) four ≡ OutOfBounds ∷ [] }
    ensures no_fault { step_faults (by_key k (sum_of x ∷ len ∷ [])) four ≡ [] }
{}
