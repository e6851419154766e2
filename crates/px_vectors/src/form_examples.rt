//! What JSON texts say as expressions and steps. A function here does nothing: its clauses are the
//! examples.
ghost use Rattle.std.specs.Prelude.{◌≡◌, pos, negsuc, true, false, [], ◌∷◌, Some, None, codes, option_and_then};
ghost use Rattle.serde_json.specs.Read.{read};
ghost use Rattle.px_column.specs.Prelude.{boolean, bytes, binaries, booleans, int32s, int64s, nulls, strings, uint8s};
ghost use Rattle.px_value.specs.declared.cast_options.CastOptions.TheVariants.{NonStrict};
ghost use Rattle.px_value.specs.declared.closed_interval.ClosedInterval.TheVariants.{Left};
ghost use Rattle.px_value.specs.declared.method.GroupByMethod.TheVariants.{Count, Max};
ghost use Rattle.px_value.specs.declared.operator.Operator.TheVariants.{FloorDivide};
ghost use Rattle.px_tree.specs.Tree.{by_name, as_explode, single, range, series, no_trees, one_tree, no_order, ordered, column, literal, alias, binary, ternary, cast, function, filter, slice, gather, sort, sort_by, agg, len, window};
ghost use Rattle.px_tree.specs.declared.function.FunctionExpr.TheVariants.{IsBetween, IsIn, IsNull, Shift};
ghost use Rattle.px_tree.specs.declared.window.WindowMapping.TheVariants.{Join};
ghost use Rattle.px_document.specs.ExprForm.{expr_of};
ghost use Rattle.px_tree.specs.Step as step;
ghost use Rattle.px_tree.specs.Step.{select, group};
ghost use Rattle.px_document.specs.StepForm.{any_step_of};
ghost use Rattle.px_vectors.specs.Examples.{column_of, falling, int, k, sum_of, word, x};
ghost use Rattle.px_vectors.specs.Worked.{num};

/// Literals, and expressions of one row at a time.
#[tactic(auto, unfolding(px_document::specs::OnLiterals::px_document_on_literals))]
pub fn row_forms()
    ensures col { option_and_then expr_of (read (codes "{\"col\":\"x\"}")) ≡ Some x }
    ensures lit { option_and_then expr_of (read (codes "{\"lit\":{\"type\":\"Int64\",\"value\":5}}")) ≡ Some (int 5) }
    ensures truth { option_and_then expr_of (read (codes "{\"lit\":{\"type\":\"Boolean\",\"value\":true}}")) ≡ Some (literal (single booleans (Some (boolean true)))) }
    ensures text { option_and_then expr_of (read (codes "{\"lit\":{\"type\":\"String\",\"value\":\"a\"}}")) ≡ Some (literal (single strings (word (codes "a")))) }
    ensures binary { option_and_then expr_of (read (codes "{\"lit\":{\"type\":\"Binary\",\"value\":\"00ff\"}}")) ≡ Some (literal (single binaries (Some (bytes (0 ∷ 255 ∷ []))))) }
    ensures null { option_and_then expr_of (read (codes "{\"lit\":{\"type\":\"Null\",\"value\":null}}")) ≡ Some (literal (single nulls None)) }
    ensures range { option_and_then expr_of (read (codes "{\"range\":{\"low\":-1,\"high\":3,\"type\":\"Int32\"}}")) ≡ Some (literal (range (negsuc 0) (pos 3) int32s)) }
    ensures series { option_and_then expr_of (read (codes "{\"series\":{\"name\":\"s\",\"type\":\"UInt8\",\"values\":[1,null]}}")) ≡ Some (literal (series (column_of (codes "s") uint8s (num 1 ∷ None ∷ [])))) }
    ensures alias { option_and_then expr_of (read (codes "{\"alias\":[{\"col\":\"x\"},\"y\"]}")) ≡ Some (alias x (codes "y")) }
    ensures bin { option_and_then expr_of (read (codes "{\"bin\":[\"FloorDivide\",{\"col\":\"x\"},{\"col\":\"k\"}]}")) ≡ Some (binary x FloorDivide k) }
    ensures when { option_and_then expr_of (read (codes "{\"when\":[{\"col\":\"b\"},{\"col\":\"x\"},{\"col\":\"k\"}]}")) ≡ Some (ternary (column (codes "b")) x k) }
    ensures cast { option_and_then expr_of (read (codes "{\"cast\":[{\"col\":\"x\"},\"String\",\"NonStrict\"]}")) ≡ Some (cast x strings NonStrict) }
    ensures is_null { option_and_then expr_of (read (codes "{\"fn\":[\"IsNull\",{\"col\":\"x\"}]}")) ≡ Some (function (one_tree x no_trees) (by_name IsNull)) }
    ensures is_in { option_and_then expr_of (read (codes "{\"fn\":[\"IsIn\",{\"col\":\"x\"},{\"col\":\"k\"}]}")) ≡ Some (function (one_tree x (one_tree k no_trees)) (by_name IsIn)) }
    ensures shift { option_and_then expr_of (read (codes "{\"fn\":[\"Shift\",-1,{\"col\":\"x\"}]}")) ≡ Some (function (one_tree x no_trees) (by_name (Shift (negsuc 0)))) }
    ensures is_between { option_and_then expr_of (read (codes "{\"fn\":[\"IsBetween\",\"Left\",{\"col\":\"x\"},{\"col\":\"k\"},{\"col\":\"x\"}]}"))
        ≡ Some (function (one_tree x (one_tree k (one_tree x no_trees))) (by_name (IsBetween Left))) }
{}

/// Expressions that choose, move or reduce rows, and windows.
#[tactic(auto, unfolding(px_document::specs::OnLiterals::px_document_on_literals))]
pub fn choice_forms()
    ensures explode { option_and_then expr_of (read (codes "{\"explode\":{\"col\":\"x\"}}")) ≡ Some (function (one_tree x no_trees) as_explode) }
    ensures filter { option_and_then expr_of (read (codes "{\"filter\":[{\"col\":\"x\"},{\"col\":\"b\"}]}")) ≡ Some (filter x (column (codes "b"))) }
    ensures slice { option_and_then expr_of (read (codes "{\"slice\":[{\"col\":\"x\"},{\"col\":\"k\"},{\"len\":null}]}")) ≡ Some (slice x k len) }
    ensures gather { option_and_then expr_of (read (codes "{\"gather\":[{\"col\":\"x\"},{\"col\":\"k\"},true]}")) ≡ Some (gather x k true) }
    ensures sort { option_and_then expr_of (read (codes "{\"sort\":[{\"col\":\"x\"},{\"descending\":true,\"nulls_last\":false}]}")) ≡ Some (sort x falling) }
    ensures sort_by { option_and_then expr_of (read (codes "{\"sort_by\":[{\"col\":\"x\"},[{\"col\":\"k\"}],{\"descending\":[true],\"nulls_last\":[]}]}"))
        ≡ Some (sort_by x (one_tree k no_trees) (record { descending = true ∷ []; nulls_last = [] })) }
    ensures agg { option_and_then expr_of (read (codes "{\"agg\":[\"Max\",{\"col\":\"x\"}]}")) ≡ Some (agg Max x) }
    ensures count { option_and_then expr_of (read (codes "{\"agg\":[\"Count\",{\"col\":\"x\"},false]}")) ≡ Some (agg (Count false) x) }
    ensures over { option_and_then expr_of (read (codes "{\"over\":{\"function\":{\"col\":\"x\"},\"keys\":[{\"col\":\"k\"}],\"order\":[{\"col\":\"x\"},{\"descending\":true,\"nulls_last\":false}],\"mapping\":\"Join\"}}"))
        ≡ Some (window x (one_tree k no_trees) (ordered x falling) Join) }
    ensures unordered { option_and_then expr_of (read (codes "{\"over\":{\"function\":{\"col\":\"x\"},\"keys\":[],\"order\":null,\"mapping\":\"Join\"}}")) ≡ Some (window x no_trees no_order Join) }
{}

/// Steps, and texts that say none.
#[tactic(auto, unfolding(px_document::specs::OnLiterals::px_document_on_literals))]
pub fn step_forms()
    ensures select { option_and_then any_step_of (read (codes "{\"select\":[{\"col\":\"x\"},{\"len\":null}]}")) ≡ Some (select (x ∷ len ∷ [])) }
    ensures filter { option_and_then any_step_of (read (codes "{\"filter\":{\"col\":\"b\"}}")) ≡ Some (step.filter (column (codes "b"))) }
    ensures group { option_and_then any_step_of (read (codes "{\"group\":{\"keys\":[{\"col\":\"k\"}],\"aggs\":[{\"agg\":[\"Sum\",{\"col\":\"x\"}]}],\"chunks\":[2,0,2]}}"))
        ≡ Some (group (k ∷ []) (sum_of x ∷ []) (Some (2 ∷ 0 ∷ 2 ∷ []))) }
    // A single literal is no list, and no null but of type Null.
    ensures list_literal { option_and_then expr_of (read (codes "{\"lit\":{\"type\":\"List(Int64)\",\"value\":[1]}}")) ≡ None }
    ensures typed_null { option_and_then expr_of (read (codes "{\"lit\":{\"type\":\"Int64\",\"value\":null}}")) ≡ None }
    ensures past_range { option_and_then expr_of (read (codes "{\"lit\":{\"type\":\"UInt8\",\"value\":256}}")) ≡ None }
    ensures unknown_operator { option_and_then expr_of (read (codes "{\"bin\":[\"Power\",{\"col\":\"x\"},{\"col\":\"k\"}]}")) ≡ None }
    ensures count_without_nulls { option_and_then expr_of (read (codes "{\"agg\":[\"Count\",{\"col\":\"x\"}]}")) ≡ None }
    ensures two_keys { option_and_then expr_of (read (codes "{\"col\":\"x\",\"len\":null}")) ≡ None }
    ensures long_chunk { option_and_then any_step_of (read (codes "{\"group\":{\"keys\":[],\"aggs\":[],\"chunks\":[4294967296]}}")) ≡ None }
    ensures negative_chunk { option_and_then any_step_of (read (codes "{\"group\":{\"keys\":[],\"aggs\":[],\"chunks\":[-1]}}")) ≡ None }
{}
