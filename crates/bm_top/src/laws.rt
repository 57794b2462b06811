//! What stands between the promises of `run` and the standards. A call here does nothing: its contract is the law.
ghost use Rattle.std.specs.Prelude.{◌≡◌, ◌≢◌, ℕ, List, [], ◌∷◌, codes};
ghost use Rattle.bm_world.specs.Meanings.{Files};
ghost use Rattle.bm_top.specs.Standard.{HoldBytes, IsVerdict};
ghost use Rattle.bm_top.specs.Verdict.{Verdict, files_after};

/// Words and files have exactly one verdict. A file is a list of bytes: of numbers below 256.
pub fn each_command_has_one_verdict()
    ensures some { (words : List (List ℕ)) (files : Files) → HoldBytes files → (verdict : Verdict) × IsVerdict words files verdict }
    ensures one { (words : List (List ℕ)) (files : Files) (verdict other : Verdict) →
        IsVerdict words files verdict → IsVerdict words files other → verdict ≡ other }
{}

/// Where `load` has written an index, `query` over it has the verdict that `ask` has over the data as it was then: the same
/// text, or the same refusal. The query is not read from the file that `load` wrote.
pub fn a_loaded_index_answers_as_its_data()
    ensures { (files : Files) (data_name index_name query_name form : List ℕ) (loaded asked queried : Verdict) →
        IsVerdict (codes "load" ∷ data_name ∷ index_name ∷ []) files loaded → loaded.status ≡ 0 → query_name ≢ index_name →
        IsVerdict (codes "ask" ∷ data_name ∷ query_name ∷ form ∷ []) files asked →
        IsVerdict (codes "query" ∷ index_name ∷ query_name ∷ form ∷ []) (files_after loaded files) queried →
        queried ≡ asked }
{}
