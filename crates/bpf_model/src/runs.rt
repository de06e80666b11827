//! Worked examples of runs.
ghost use Rattle.std.specs.Prelude.{◌≡◌};
ghost use Rattle.bpf_model.specs.Examples.{run_of, run_with, exit_with_7, store_and_load, store_past_the_end, jump_into_a_wide_load, calls_itself, calls_down, fetch_and_add, helper, load_alone, failing_exchange, reading_run_of};

use bpf_isa::End;

/// Worked examples of runs on a range of 8 zeros from byte 16 on of namespace 1.
pub fn example_runs()
    ensures exit_with_7_in_2 { (run_of exit_with_7 2).ending ≡ End.Exit 7 }
    ensures exit_with_7_in_1 { (run_of exit_with_7 1).ending ≡ End.BudgetSpent }
    ensures stored_value_is_loaded { (run_of store_and_load 4).ending ≡ End.Exit 85 }
    ensures stored_byte { (run_of store_and_load 4).memory 1 16 ≡ 85 }
    ensures other_byte { (run_of store_and_load 4).memory 1 17 ≡ 0 }
    ensures other_namespace { (run_of store_and_load 4).memory 2 16 ≡ 0 }
    ensures past_the_end { (run_of store_past_the_end 100).ending ≡ End.BadAccess 2 }
    ensures nothing_stored { (run_of store_past_the_end 100).memory 1 24 ≡ 0 }
    ensures into_a_wide_load { (run_of jump_into_a_wide_load 100).ending ≡ End.BadJump 0 }
    ensures eighth_frame { (run_of calls_itself 7).ending ≡ End.BudgetSpent }
    ensures ninth_frame { (run_of calls_itself 8).ending ≡ End.CallDepth 0 }
    ensures eight_frames_return { (run_with calls_down 7 30).ending ≡ End.Exit 0 }
    ensures eight_frames_within_29 { (run_with calls_down 7 29).ending ≡ End.BudgetSpent }
    ensures nine_frames { (run_with calls_down 8 100).ending ≡ End.CallDepth 2 }
    ensures old_value_is_fetched { (run_of fetch_and_add 10).ending ≡ End.Exit 9 }
    ensures sum_is_stored { (run_of fetch_and_add 10).memory 1 16 ≡ 14 }
    ensures length_of_range { (run_with helper 0 2).ending ≡ End.Exit 8 }
    ensures no_such_range { (run_with helper 1 2).ending ≡ End.Exit 0xffff_ffff_ffff_ffff }
{}

/// Worked examples of runs on the same 8 bytes as a read-only range.
pub fn example_runs_on_read_only_ranges()
    ensures byte_is_loaded { (reading_run_of load_alone 10).ending ≡ End.Exit 0 }
    ensures store_is_refused { (reading_run_of store_and_load 10).ending ≡ End.BadAccess 2 }
    ensures nothing_stored { (reading_run_of store_and_load 10).memory 1 16 ≡ 0 }
    ensures failing_exchange_is_refused { (reading_run_of failing_exchange 10).ending ≡ End.BadAccess 4 }
    ensures failing_exchange_of_a_read_write_range { (run_of failing_exchange 10).ending ≡ End.Exit 0 }
    ensures nothing_exchanged { (run_of failing_exchange 10).memory 1 16 ≡ 0 }
{}
