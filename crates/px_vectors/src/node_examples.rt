//! What each expression answers on the frame of four rows. A function here does nothing: its clauses are
//! the examples.
ghost use Rattle.std.specs.Prelude.{◌≡◌, pos, negsuc, true, false, [], ◌∷◌, Some, None, codes};
ghost use Rattle.px_column.specs.Prelude.{integer, list, slots, int64s, lists, strings};
ghost use Rattle.px_value.specs.declared.cast_options.CastOptions.TheVariants.{Strict};
ghost use Rattle.px_value.specs.declared.closed_interval.ClosedInterval.TheVariants.{Both};
ghost use Rattle.px_value.specs.declared.error.ComputeWhy.TheVariants.{SliceArgument};
ghost use Rattle.px_value.specs.declared.error.PxError.TheVariants.{ComputeError, OutOfBounds, ShapeMismatch};
ghost use Rattle.px_value.specs.declared.method.GroupByMethod.TheVariants as method;
ghost use Rattle.px_value.specs.declared.operator.Operator.TheVariants.{Plus};
ghost use Rattle.px_frame.specs.Cell.{unit, rows};
ghost use Rattle.px_frame.specs.External.{alone};
ghost use Rattle.px_tree.specs.Tree.{by_name, single, range, series, no_trees, one_tree, column, literal, alias, binary, ternary, cast, function, filter, slice, gather, sort, sort_by, agg, len};
ghost use Rattle.px_tree.specs.Value.{faults_on, value_on};
ghost use Rattle.px_tree.specs.declared.function.FunctionExpr.TheVariants.{DropNulls, IsBetween, IsIn, IsNotNull, IsNull, Not, NullCount, Shift};
ghost use Rattle.px_vectors.specs.Examples.{column_of, explode, falling, four, greater, int, negative, no_value, null_int, numbers, nums, reversed, some_nulls, sum_of, truth, truths, word, x};
ghost use Rattle.px_vectors.specs.Worked.{num};

/// Leaves, operators and casts.
pub fn row_examples()
    ensures column { value_on x four ≡ Some (rows (nums (0 ∷ 1 ∷ 2 ∷ 3 ∷ []))) }
    ensures literal { value_on (int 5) four ≡ Some (unit (num 5)) }
    ensures alias { value_on (alias x (codes "y")) four ≡ Some (rows (nums (0 ∷ 1 ∷ 2 ∷ 3 ∷ []))) }
    ensures range { value_on (literal (range (pos 0) (pos 3) int64s)) four ≡ Some (rows (nums (0 ∷ 1 ∷ 2 ∷ []))) }
    ensures no_range { value_on (literal (range (pos 3) (negsuc 0) int64s)) four ≡ Some (rows []) }
    ensures series { value_on (literal (series (column_of (codes "s") int64s (num 1 ∷ None ∷ [])))) four ≡ Some (rows (num 1 ∷ None ∷ [])) }
    // A unit stands at each row of a list beside it.
    ensures unit_beside_list { value_on (binary x Plus (int 1)) four ≡ Some (rows (nums (1 ∷ 2 ∷ 3 ∷ 4 ∷ []))) }
    ensures units { value_on (binary (int 2) Plus (int 1)) four ≡ Some (unit (num 3)) }
    // A list of one row is a list, and takes no other length.
    ensures one_row { faults_on (binary x Plus (filter x (greater x 2))) four ≡ ShapeMismatch ∷ [] }
    ensures unit_beside_one_row { value_on (binary (int 1) Plus (filter x (greater x 2))) four ≡ Some (rows (num 4 ∷ [])) }
    ensures chosen { value_on (ternary (greater x 1) x (int 0)) four ≡ Some (rows (nums (0 ∷ 0 ∷ 2 ∷ 3 ∷ []))) }
    // A null predicate chooses the second.
    ensures null_predicate { value_on (ternary (greater null_int 1) (int 1) (int 0)) four ≡ Some (unit (num 0)) }
    ensures texts { value_on (cast x strings Strict) four ≡ Some (rows (word (codes "0") ∷ word (codes "1") ∷ word (codes "2") ∷ word (codes "3") ∷ [])) }
    ensures length { value_on len four ≡ Some (unit (num 4)) }
    ensures no_rows { value_on (binary x Plus (int 1)) (alone (column_of (codes "x") int64s [] ∷ [])) ≡ Some (rows []) }
{}

/// Functions of rows.
pub fn function_examples()
    ensures is_null { value_on (function (one_tree x no_trees) (by_name IsNull)) some_nulls ≡ Some (rows (truths (false ∷ true ∷ false ∷ []))) }
    ensures is_not_null { value_on (function (one_tree x no_trees) (by_name IsNotNull)) some_nulls ≡ Some (rows (truths (true ∷ false ∷ true ∷ []))) }
    ensures not { value_on (function (one_tree (greater x 1) no_trees) (by_name Not)) some_nulls ≡ Some (rows (truth true ∷ None ∷ truth false ∷ [])) }
    ensures between { value_on (function (one_tree x (one_tree (int 1) (one_tree (int 2) no_trees))) (by_name (IsBetween Both))) four ≡ Some (rows (truths (false ∷ true ∷ true ∷ false ∷ []))) }
    ensures among { value_on (function (one_tree x (one_tree (literal (series (column_of (codes "s") int64s (num 1 ∷ None ∷ [])))) no_trees)) (by_name IsIn)) some_nulls
        ≡ Some (rows (truth true ∷ None ∷ truth false ∷ [])) }
    ensures reversed { value_on (reversed x) four ≡ Some (rows (nums (3 ∷ 2 ∷ 1 ∷ 0 ∷ []))) }
    // A unit counts as a list of one row.
    ensures reversed_unit { value_on (reversed (int 5)) four ≡ Some (rows (num 5 ∷ [])) }
    ensures shifted { value_on (function (one_tree x no_trees) (by_name (Shift (pos 1)))) four ≡ Some (rows (None ∷ num 0 ∷ num 1 ∷ num 2 ∷ [])) }
    ensures shifted_back { value_on (function (one_tree x no_trees) (by_name (Shift (negsuc 0)))) four ≡ Some (rows (num 1 ∷ num 2 ∷ num 3 ∷ None ∷ [])) }
    ensures shifted_away { value_on (function (one_tree x no_trees) (by_name (Shift (pos 9)))) four ≡ Some (rows (None ∷ None ∷ None ∷ None ∷ [])) }
    ensures present { value_on (function (one_tree x no_trees) (by_name DropNulls)) some_nulls ≡ Some (rows (num 1 ∷ num 3 ∷ [])) }
    ensures nulls { value_on (function (one_tree x no_trees) (by_name NullCount)) some_nulls ≡ Some (unit (num 1)) }
    ensures exploded { value_on (explode (column (codes "l"))) (alone (column_of (codes "l") (lists int64s) (numbers (1 ∷ 2 ∷ []) ∷ numbers [] ∷ None ∷ []) ∷ []))
        ≡ Some (rows (num 1 ∷ num 2 ∷ None ∷ None ∷ [])) }
{}

/// Rows that are chosen, moved or reduced.
pub fn choice_examples()
    ensures filtered { value_on (filter x (greater x 0)) four ≡ Some (rows (nums (1 ∷ 2 ∷ 3 ∷ []))) }
    // A unit mask stands for every row, and a null for none.
    ensures unit_mask { value_on (filter x (greater (int 1) 0)) four ≡ Some (rows (nums (0 ∷ 1 ∷ 2 ∷ 3 ∷ []))) }
    ensures null_mask { value_on (filter x (greater null_int 0)) four ≡ Some (rows []) }
    ensures sliced { value_on (slice x (negative 2) (int 1)) four ≡ Some (rows (num 2 ∷ [])) }
    ensures before_first { value_on (slice x (negative 6) (int 3)) four ≡ Some (rows (num 0 ∷ [])) }
    ensures no_limit { value_on (slice x (int 2) no_value) four ≡ Some (rows (nums (2 ∷ 3 ∷ []))) }
    ensures negative_length { faults_on (slice x (int 0) (negative 1)) four ≡ ComputeError SliceArgument ∷ [] }
    ensures many_offsets { faults_on (slice x x (int 1)) four ≡ ComputeError SliceArgument ∷ [] }
    ensures gathered { value_on (gather x (literal (series (column_of (codes "s") int64s (num 3 ∷ None ∷ Some (integer (negsuc 3)) ∷ [])))) false) four
        ≡ Some (rows (num 3 ∷ None ∷ num 0 ∷ [])) }
    ensures gathered_one { value_on (gather x (negative 1) true) four ≡ Some (unit (num 3)) }
    ensures one_as_list { value_on (gather x (negative 1) false) four ≡ Some (rows (num 3 ∷ [])) }
    ensures too_far_back { faults_on (gather x (negative 5) true) four ≡ OutOfBounds ∷ [] }
    ensures sorted { value_on (sort x falling) four ≡ Some (rows (nums (3 ∷ 2 ∷ 1 ∷ 0 ∷ []))) }
    ensures nulls_first { value_on (sort x falling) some_nulls ≡ Some (rows (None ∷ num 3 ∷ num 1 ∷ [])) }
    ensures nulls_last { value_on (sort x (record { descending = true; nulls_last = true })) some_nulls ≡ Some (rows (num 3 ∷ num 1 ∷ None ∷ [])) }
    // By k, and equal rows as they stand.
    ensures by_k { value_on (sort_by x (one_tree (column (codes "k")) no_trees) (record { descending = true ∷ []; nulls_last = [] })) four ≡ Some (rows (nums (1 ∷ 0 ∷ 2 ∷ 3 ∷ []))) }
    ensures by_unit { value_on (sort_by x (one_tree (int 1) no_trees) (record { descending = []; nulls_last = [] })) four ≡ Some (rows (nums (0 ∷ 1 ∷ 2 ∷ 3 ∷ []))) }
    ensures summed { value_on (sum_of x) four ≡ Some (unit (num 6)) }
    ensures listed { value_on (agg method.Implode x) some_nulls ≡ Some (rows (Some (list (slots (num 1 ∷ None ∷ num 3 ∷ []))) ∷ [])) }
{}
