// The value of a sheet.
ghost use Rattle.recipe.specs.Recipes.{Rules as Meaning, ValueIsOne, ValueRests};

// Where a sheet has a value it is one, and it rests on the records that its run's tags touch.
pub fn value_laws()
    ensures one { (rules : Meaning) → ValueIsOne rules }
    ensures rests { (rules : Meaning) → ValueRests rules }
{}
