//! Laws of where what is read came from. A function has nothing to do: its contract is the law.

ghost use Rattle.std.specs.Prelude.{◌≡◌, ◌↔◌, ◌⊎◌, ℕ, List, [], None, Contains};
ghost use Rattle.std.specs.List.{AllByRecursion};
ghost use Rattle.vocabulary.specs.Prelude.{Lined, Good, Ask, Link, records_of, tables_of, HasNoCycle, Step, IsInterleaving, IsRaceFree};
ghost use Rattle.semantics.specs.declared.command.Command.TheVariants.{Check};
ghost use Rattle.semantics.specs.declared.links.LinkKind.TheVariants as kinds;
ghost use Rattle.semantics.specs.Faults.{log_fault};
ghost use Rattle.semantics.specs.Links.{Source, ComesFrom, AreLinksOf, IsNoRead, EndsInOrigin, TellValue};

/// In a log without a fault, a cycle and a race what a read came from is the same in every interleaving. A read that is asked for has links unless it is not there, and just one list of them. All of these but the last are copies, and where nothing was added on the way, what is read in every interleaving is what the last one puts.
pub fn trails_are_one()
    ensures alike { (lines : ℕ) (log : List Lined) → AllByRecursion Good (records_of log)
        → log_fault Check lines log ≡ None → HasNoCycle (tables_of log) → IsRaceFree (tables_of log)
        → (xs ys : List Step) → IsInterleaving (tables_of log) xs → IsInterleaving (tables_of log) ys
        → (x : Step) (sources : List Source) → ComesFrom [] xs x sources → ComesFrom [] ys x sources }
    ensures some { (lines : ℕ) (log : List Lined) → AllByRecursion Good (records_of log)
        → log_fault Check lines log ≡ None → HasNoCycle (tables_of log) → IsRaceFree (tables_of log)
        → (ask : Ask) → ((links : List Link) × AreLinksOf (tables_of log) ask links) ⊎ IsNoRead (tables_of log) ask }
    ensures one { (lines : ℕ) (log : List Lined) → AllByRecursion Good (records_of log)
        → log_fault Check lines log ≡ None → HasNoCycle (tables_of log) → (ask : Ask) (links others : List Link)
        → AreLinksOf (tables_of log) ask links → AreLinksOf (tables_of log) ask others → links ≡ others }
    ensures ends { (lines : ℕ) (log : List Lined) → AllByRecursion Good (records_of log)
        → log_fault Check lines log ≡ None → HasNoCycle (tables_of log) → (ask : Ask) (links : List Link)
        → AreLinksOf (tables_of log) ask links → EndsInOrigin links }
    ensures starts { (lines : ℕ) (log : List Lined) → AllByRecursion Good (records_of log)
        → log_fault Check lines log ≡ None → HasNoCycle (tables_of log) → (ask : Ask) (links : List Link)
        → AreLinksOf (tables_of log) ask links
        → (l : Link) → Contains links l → (l.done ≡ 0) ↔ (l.kind ≡ kinds.Start) }
    ensures value { (lines : ℕ) (log : List Lined) → AllByRecursion Good (records_of log)
        → log_fault Check lines log ≡ None → HasNoCycle (tables_of log) → (ask : Ask) (links : List Link)
        → AreLinksOf (tables_of log) ask links → TellValue (tables_of log) ask links }
{}
