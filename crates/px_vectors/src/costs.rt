//! Examples of which expressions are core and flat, and of what evaluating them costs. A function here
//! does nothing: its clauses are the examples.
ghost use Rattle.std.specs.Prelude.{◌≡◌, true, false, [], ◌∷◌, Some, None, codes};
ghost use Rattle.px_column.specs.Prelude.{int64s};
ghost use Rattle.px_value.specs.declared.cast_options.CastOptions.TheVariants.{NonStrict};
ghost use Rattle.px_value.specs.declared.operator.Operator.TheVariants.{Plus};
ghost use Rattle.px_frame.specs.External.{scope_of};
ghost use Rattle.px_tree.specs.Core.{is_core};
ghost use Rattle.px_tree.specs.Cost.{cost_on, group_cost, is_flat, keys_on, ticks_of, windows_in};
ghost use Rattle.px_tree.specs.Tree.{no_trees, one_tree, ordered, binary, cast, filter, ternary, window};
ghost use Rattle.px_tree.specs.declared.window.WindowMapping.TheVariants.{Explode, GroupsToRows};
ghost use Rattle.px_steps.specs.Plain.{groupings_in, groupings_of};
ghost use Rattle.px_vectors.specs.Examples.{by_key, column_of, falling, four, greater, int, k, nums, over_k, reversed, sales_report, sum_of, x};

/// Core expressions, and what evaluating an expression costs: on a frame, on groups, and in groupings.
pub fn cost_examples()
    // A filter by a comparison is core; a reduction of one value is not.
    ensures core { is_core (filter x (greater x 0)) (scope_of four) ≡ true }
    ensures not_core { is_core (sum_of (int 5)) (scope_of four) ≡ false }
    // One reduction of operators is flat; an operator on a reduction is not.
    ensures flat { is_flat (sum_of (binary x Plus x)) ≡ true }
    ensures not_flat { is_flat (binary (sum_of x) Plus (int 1)) ≡ false }
    // The nodes that run a kernel: neither columns nor literals.
    ensures ticks { ticks_of (sum_of (binary x Plus x)) ≡ 2 }
    ensures cast_ticks { ticks_of (ternary (greater x 1) (cast x int64s NonStrict) (int 0)) ≡ 3 }
    // One kernel a node where the expression is flat, however many groups there are.
    ensures flat_groups { group_cost (ternary (greater x 1) x (int 0)) 2 ≡ 6 }
    ensures other_groups { group_cost (reversed x) 2 ≡ 6 }
    // A window costs its nodes; with an order, one more for each of the two parts.
    ensures window_cost { cost_on (over_k (sum_of x) GroupsToRows) four ≡ Some 4 }
    ensures ordered_cost { cost_on (window x (one_tree k no_trees) (ordered x falling) Explode) four ≡ Some 6 }
    ensures no_cost { cost_on (reversed x) four ≡ None }
    // A window is grouped by its keys, and its values are placed as it says; an expression without windows has none.
    ensures window_keys { keys_on (over_k (sum_of x) GroupsToRows) four
        ≡ (record { keys = column_of (codes "k") int64s (nums (7 ∷ 9 ∷ 7 ∷ 7 ∷ [])) ∷ []; order = None }, GroupsToRows) ∷ [] }
    ensures no_keys { keys_on (sum_of x) four ≡ [] }
    // Rows are grouped once for each window, also for one in a key or an order of another.
    ensures two_windows { windows_in (binary (over_k (sum_of x) GroupsToRows) Plus (over_k x GroupsToRows)) ≡ 2 }
    ensures inner_windows { windows_in (window x (one_tree (over_k x GroupsToRows) no_trees) (ordered (over_k (sum_of x) GroupsToRows) falling) Explode) ≡ 3 }
    ensures no_window { windows_in (sum_of x) ≡ 0 }
    // And once for each group step.
    ensures step_groupings { groupings_in (by_key (over_k x GroupsToRows) (sum_of x ∷ [])) ≡ 2 }
    ensures report_groupings { groupings_of sales_report ≡ 2 }
{}
