//! What the definitions of this crate mean, as theorems that call nothing.
ghost use Rattle.std.specs.Prelude.{◌≡◌, ℕ, List, Option, None, Some, codes};
ghost use Rattle.process_figures.specs.Figures.{boot_time, resident_bytes, run_time, start_time};
ghost use Rattle.process_figures.specs.Limits.{max_open_files};
ghost use Rattle.process_figures.specs.Stat.{IsBehindLast, behind_last};

/// What is behind the last such byte: no such byte is in it, and nothing else is so.
pub fn closing()
    ensures behind { (byte : ℕ) (text rest : List ℕ) → behind_last byte text ≡ Some rest → IsBehindLast byte text rest }
    ensures only { (byte : ℕ) (text rest : List ℕ) → IsBehindLast byte text rest → behind_last byte text ≡ Some rest }
{}

/// Worked texts. In the third and the fourth the name of the program has spaces and parentheses.
pub fn rows()
    ensures ran { run_time (codes "7 (relay) S 1 7 7 0 -1 4194560 160 0 0 0 123 45 0 0 20 0 4 0 6789 10485760 250 18446744073709551615\n") ≡ Some 1680 }
    ensures resident { resident_bytes (codes "7 (relay) S 1 7 7 0 -1 4194560 160 0 0 0 123 45 0 0 20 0 4 0 6789 10485760 250 18446744073709551615\n") ≡ Some 1024000 }
    ensures ran_of_a_name { run_time (codes "7 (a) S 1 (b c)) R 1 7 7 0 -1 4194560 160 0 0 0 2 1 0 0 20 0 4 0 6789 10485760 250 0\n") ≡ Some 30 }
    ensures started { start_time (codes "7 (a ) b) S 1 7 7 0 -1 4194560 160 0 0 0 123 45 0 0 20 0 4 0 6789 10485760 250 0\n") (codes "cpu  1 2 3\nintr 5\nbtime 1795921000\nprocesses 9\n") ≡ Some 1795921067890 }
    ensures no_line { boot_time (codes "cpu  1 2 3\nxbtime 5\n") ≡ None }
    ensures cut_short { run_time (codes "7 (relay) S 1 7 7") ≡ None }
    ensures too_great { run_time (codes "7 (relay) S 1 7 7 0 -1 4194560 160 0 0 0 18446744073709551616 45 0") ≡ None }
    ensures capped { run_time (codes "7 (relay) S 1 7 7 0 -1 4194560 160 0 0 0 18446744073709551615 45 0") ≡ Some 18446744073709551615 }
    ensures soft { max_open_files (codes "Limit  Soft Limit  Hard Limit  Units     \nMax open files            1024                 524288               files     \n") ≡ Some 1024 }
    ensures unlimited { max_open_files (codes "Max open files            unlimited            unlimited            files     \n") ≡ Some 18446744073709551615 }
{}
