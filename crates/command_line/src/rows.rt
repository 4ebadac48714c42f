//! Laws that compute what words order.
ghost use Rattle.std.specs.Prelude.{◌≡◌, ◌∷◌, [], None, Some, codes, replicate};
ghost use Rattle.command_line.specs.CommandLine.{checks, load_command, loads, order, runs};

/// The words `run f.pl true`, and `run f.pl`, which have no goal: all numbers are those that stand where none is given.
pub fn two_words_are_enough()
    ensures goal { order (codes "run" ∷ (codes "f.pl" ∷ (codes "true" ∷ [])))
        ≡ Some (runs (record {
          file = codes "f.pl";
          words = codes "true" ∷ [];
          limits = record { inferences = 10000000; cells = 4000000; choices = 1000000; solutions = 1; stays = None };
          workers = 4;
          slots = 65536;
        })) }
    ensures none { order (codes "run" ∷ (codes "f.pl" ∷ []))
        ≡ Some (runs (record {
          file = codes "f.pl";
          words = [];
          limits = record { inferences = 10000000; cells = 4000000; choices = 1000000; solutions = 1; stays = None };
          workers = 4;
          slots = 65536;
        })) }
{}

/// Options stand before the words, between them or after them, with a space or an equals sign before the number.
pub fn options_stand_anywhere()
    ensures before { order (codes "run" ∷ (codes "--solutions" ∷ (codes "9" ∷ (codes "f.pl" ∷ (codes "true" ∷ [])))))
        ≡ Some (runs (record {
          file = codes "f.pl";
          words = codes "true" ∷ [];
          limits = record { inferences = 10000000; cells = 4000000; choices = 1000000; solutions = 9; stays = None };
          workers = 4;
          slots = 65536;
        })) }
    ensures between { order (codes "run" ∷ (codes "f.pl" ∷ (codes "--cells" ∷ (codes "7" ∷ (codes "true" ∷ [])))))
        ≡ Some (runs (record {
          file = codes "f.pl";
          words = codes "true" ∷ [];
          limits = record { inferences = 10000000; cells = 7; choices = 1000000; solutions = 1; stays = None };
          workers = 4;
          slots = 65536;
        })) }
    ensures behind { order (codes "run" ∷ (codes "f.pl" ∷ (codes "true" ∷ (codes "--inferences=3" ∷ (codes "--choices=5" ∷ [])))))
        ≡ Some (runs (record {
          file = codes "f.pl";
          words = codes "true" ∷ [];
          limits = record { inferences = 3; cells = 4000000; choices = 5; solutions = 1; stays = None };
          workers = 4;
          slots = 65536;
        })) }
{}

/// A word that begins with a minus sign is an option, but for the words after `--`.
pub fn two_minus_signs_end_the_options()
    ensures option { order (codes "run" ∷ (codes "f.pl" ∷ (codes "-p" ∷ []))) ≡ None }
    ensures word { order (codes "run" ∷ (codes "f.pl" ∷ (codes "--" ∷ (codes "-p" ∷ []))))
        ≡ Some (runs (record {
          file = codes "f.pl";
          words = codes "-p" ∷ [];
          limits = record { inferences = 10000000; cells = 4000000; choices = 1000000; solutions = 1; stays = None };
          workers = 4;
          slots = 65536;
        })) }
{}

/// The goals stand in their order, also with an option between them. There are at most 64.
pub fn goals_stand_in_their_order()
    ensures several { order (codes "run" ∷ (codes "f.pl" ∷ (codes "p(X)" ∷ (codes "--cells" ∷ (codes "7" ∷ (codes "true" ∷ (codes "true" ∷ [])))))))
        ≡ Some (runs (record {
          file = codes "f.pl";
          words = codes "p(X)" ∷ (codes "true" ∷ (codes "true" ∷ []));
          limits = record { inferences = 10000000; cells = 7; choices = 1000000; solutions = 1; stays = None };
          workers = 4;
          slots = 65536;
        })) }
    ensures most { order (codes "run" ∷ (codes "f" ∷ replicate 64 (codes "g")))
        ≡ Some (runs (record {
          file = codes "f";
          words = replicate 64 (codes "g");
          limits = record { inferences = 10000000; cells = 4000000; choices = 1000000; solutions = 1; stays = None };
          workers = 4;
          slots = 65536;
        })) }
    ensures too_many { order (codes "run" ∷ (codes "f" ∷ replicate 65 (codes "g"))) ≡ None }
{}

/// How many workers there are and how many slots for atoms.
pub fn workers_and_slots_are_given()
    ensures least { order (codes "run" ∷ (codes "--workers=1" ∷ (codes "--atoms" ∷ (codes "512" ∷ (codes "f" ∷ [])))))
        ≡ Some (runs (record {
          file = codes "f";
          words = [];
          limits = record { inferences = 10000000; cells = 4000000; choices = 1000000; solutions = 1; stays = None };
          workers = 1;
          slots = 512;
        })) }
    ensures most { order (codes "run" ∷ (codes "f" ∷ (codes "--atoms=1048576" ∷ (codes "--workers" ∷ (codes "16" ∷ [])))))
        ≡ Some (runs (record {
          file = codes "f";
          words = [];
          limits = record { inferences = 10000000; cells = 4000000; choices = 1000000; solutions = 1; stays = None };
          workers = 16;
          slots = 1048576;
        })) }
    ensures no_worker { order (codes "run" ∷ (codes "--workers=0" ∷ (codes "f" ∷ []))) ≡ None }
    ensures too_many_workers { order (codes "run" ∷ (codes "--workers=17" ∷ (codes "f" ∷ []))) ≡ None }
    ensures too_few_slots { order (codes "run" ∷ (codes "--atoms=511" ∷ (codes "f" ∷ []))) ≡ None }
    ensures too_many_slots { order (codes "run" ∷ (codes "--atoms=1048577" ∷ (codes "f" ∷ []))) ≡ None }
{}

/// A number below the least one or above the largest one, one that is no number, and one that is given twice.
pub fn numbers_have_bounds()
    ensures least { order (codes "run" ∷ (codes "--solutions=0" ∷ (codes "f" ∷ (codes "g" ∷ [])))) ≡ None }
    ensures most { order (codes "run" ∷ (codes "--solutions=1000001" ∷ (codes "f" ∷ (codes "g" ∷ [])))) ≡ None }
    ensures most_inferences { order (codes "run" ∷ (codes "--inferences=1000000001" ∷ (codes "f" ∷ (codes "g" ∷ [])))) ≡ None }
    ensures most_cells { order (codes "run" ∷ (codes "--cells=100000001" ∷ (codes "f" ∷ (codes "g" ∷ [])))) ≡ None }
    ensures most_choices { order (codes "run" ∷ (codes "--choices=10000001" ∷ (codes "f" ∷ (codes "g" ∷ [])))) ≡ None }
    ensures none { order (codes "run" ∷ (codes "--inferences=many" ∷ (codes "f" ∷ (codes "g" ∷ [])))) ≡ None }
    ensures twice { order (codes "run" ∷ (codes "--solutions=1" ∷ (codes "--solutions=1" ∷ (codes "f" ∷ (codes "g" ∷ []))))) ≡ None }
{}

/// The largest numbers are taken.
pub fn numbers_reach_their_bounds()
    ensures { order (codes "run" ∷ (codes "--solutions=1000000" ∷ (codes "--inferences=1000000000" ∷ (codes "--cells=100000000"
        ∷ (codes "--choices=10000000" ∷ (codes "f" ∷ []))))))
        ≡ Some (runs (record {
          file = codes "f";
          words = [];
          limits = record { inferences = 1000000000; cells = 100000000; choices = 10000000; solutions = 1000000; stays = None };
          workers = 4;
          slots = 65536;
        })) }
{}

/// The file that is to be checked is the one word of `check`, which has no option.
pub fn check_has_one_word()
    ensures file { order (codes "check" ∷ (codes "f.pl" ∷ [])) ≡ Some (checks (codes "f.pl")) }
    ensures minus { order (codes "check" ∷ (codes "--" ∷ (codes "-f" ∷ []))) ≡ Some (checks (codes "-f")) }
    ensures nothing { order (codes "check" ∷ []) ≡ None }
    ensures goal { order (codes "check" ∷ (codes "f.pl" ∷ (codes "true" ∷ []))) ≡ None }
    ensures option { order (codes "check" ∷ (codes "--cells=7" ∷ (codes "f.pl" ∷ []))) ≡ None }
    ensures help { order (codes "check" ∷ (codes "--help" ∷ [])) ≡ None }
{}

/// A seed from 0 to 2,147,483,647 and a size from 1 to 10,000 are the two words of `load`, which has no option.
pub fn load_has_a_seed_and_a_size()
    ensures least { order (codes "load" ∷ (codes "0" ∷ (codes "1" ∷ []))) ≡ Some (loads 0 1) }
    ensures most { order (codes "load" ∷ (codes "2147483647" ∷ (codes "10000" ∷ []))) ≡ Some (loads 2147483647 10000) }
    ensures zeros { order (codes "load" ∷ (codes "+3" ∷ (codes "0099" ∷ []))) ≡ Some (loads 3 99) }
    ensures too_large_seed { order (codes "load" ∷ (codes "2147483648" ∷ (codes "1" ∷ []))) ≡ None }
    ensures too_large_size { order (codes "load" ∷ (codes "1" ∷ (codes "10001" ∷ []))) ≡ None }
    ensures no_size { order (codes "load" ∷ (codes "1" ∷ (codes "0" ∷ []))) ≡ None }
    ensures negative { order (codes "load" ∷ (codes "-1" ∷ (codes "1" ∷ []))) ≡ None }
    ensures negative_word { order (codes "load" ∷ (codes "--" ∷ (codes "-1" ∷ (codes "1" ∷ [])))) ≡ None }
    ensures no_number { order (codes "load" ∷ (codes "1" ∷ (codes "many" ∷ []))) ≡ None }
    ensures one_word { order (codes "load" ∷ (codes "1" ∷ [])) ≡ None }
    ensures three_words { order (codes "load" ∷ (codes "1" ∷ (codes "1" ∷ (codes "1" ∷ [])))) ≡ None }
    ensures option { order (codes "load" ∷ (codes "--workers=4" ∷ (codes "1" ∷ (codes "1" ∷ [])))) ≡ None }
{}

/// `load` runs its source as `run load load` runs a file.
pub fn load_runs_as_run_does()
    ensures { order (codes "run" ∷ (codes "load" ∷ (codes "load" ∷ []))) ≡ Some (runs load_command) }
{}

/// Words that order nothing: none, a file that is not there, another command, and help.
pub fn other_words_order_nothing()
    ensures nothing { order [] ≡ None }
    ensures file { order (codes "run" ∷ []) ≡ None }
    ensures another { order (codes "walk" ∷ (codes "f.pl" ∷ [])) ≡ None }
    ensures help { order (codes "help" ∷ []) ≡ None }
    ensures help_of_run { order (codes "run" ∷ (codes "--help" ∷ [])) ≡ None }
{}
