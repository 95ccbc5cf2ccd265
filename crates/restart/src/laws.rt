//! The law of the first check that fails. It stands on the contract of a function that does nothing.
ghost use Rattle.std.specs.Prelude.{◌≡◌, ℕ, List};
ghost use Rattle.store_model.specs.Damage.{Fault, HasFault};
ghost use Rattle.restart.specs.declared.recovering.Recovered.{Recovered};
ghost use Rattle.restart.specs.Recovering.{IsRecovered};

/// Of the bytes of some devices only one check is the first that fails, and where a store is recovered none does.
pub fn first_fault_is_one()
    ensures one { (graphs values : List (List ℕ)) (fault other : Fault) → HasFault graphs values fault → HasFault graphs values other → fault ≡ other }
    ensures none { (graphs values : List (List ℕ)) (recovered : Recovered) (fault : Fault) → IsRecovered graphs values recovered → HasFault graphs values fault → ⊥ }
{}
