// [3.7] The names in force: which types the inputs and the variables have.
ghost use Rattle.std.specs.Prelude.{◌≡◌, true, List, [], ◌∷◌, ℕ, suc, ◌+◌, ◌-◌, ◌≤◌, ◌<◌, length, get_or};
ghost use Rattle.meaning.specs.Types.{DataType, number, element};
ghost use Rattle.type_table.specs.Table.{type_at, Sound};
ghost use Rattle.typing.specs.Check.{is_array};
ghost use Rattle.words.specs.Groups.{is_map};
ghost use Rattle.type_rules.specs.Rules.{opens_second, second_scope};
ghost use Rattle.type_rules.specs.Scopes.{InForce, Opens};

use crate::series::Series;
use refusals::Refusal;
use words::groups::is_map;

// Places of types: of each input, and of each variable, the innermost last. The variables stand in an array with their count beside it, since
// nothing is taken from a heap (rule of the project).
#[derive(Clone, Copy, Debug, PartialEq, Eq)]
pub struct Scope {
    pub inputs: [u16; 8],
    pub variables: [u16; 16],
    pub count: usize,
}

impl Scope {
    // One more variable, of the type at a place.
    pub fn with_variable(self, place: usize) -> Scope
        requires { (self.count < 16) × (place < 65536) }
        ensures one { result.count ≡ self.count + 1 }
        ensures named { (T : List ℕ) (m : ℕ) (I Γ : List DataType) → InForce T m self I Γ → place < m → InForce T m result I (type_at T place ∷ Γ) }
    {
        let mut inner = self;
        inner.variables[inner.count] = place as u16;
        inner.count += 1;
        inner
    }

    // The names in force in a row's second operand, the first having the type at a place: [5.4] a map's body has the element, [5.11] and stands
    // over an array, [18.6] or over a vector, [18.3] of which it has a lane; or the "no" to question 7.
    pub fn second(
        self,
        kind: u8,
        types: &[u64],
        place: usize,
        line: usize,
    ) -> Result<Scope, Refusal>
        requires { Sound types.now (suc place) × (is_map kind ≡ true → self.count < 16) × (type_at types.now 0 ≡ number) }
        ensures { Opens line (opens_second kind (type_at types.now place)) (λ inner. (m : ℕ) (I Γ : List DataType)
            → place < m → InForce types.now m self I Γ → InForce types.now m inner I (second_scope kind (type_at types.now place) Γ)) result }
    {
        if !is_map(kind) {
            return Ok(self);
        }
        let over = Series::of_map(kind).ask(types, place, line)?;
        Ok(self.with_variable(over.element))
    }

    // [5.5] The names in force in the body of a reduction: the total has the start's type, and below it stands the element; or the "no", if it
    // stands over no array.
    pub fn third(
        self,
        types: &[u64],
        start: usize,
        array: usize,
        line: usize,
    ) -> Result<Scope, Refusal>
        requires { Sound types.now (suc start) × Sound types.now (suc array) × (self.count < 15) }
        ensures { Opens line (is_array (type_at types.now array)) (λ inner. (m : ℕ) (I Γ : List DataType)
            → start < m → array < m → InForce types.now m self I Γ
            → InForce types.now m inner I (type_at types.now start ∷ element (type_at types.now array) ∷ Γ)) result }
    {
        let over = Series::Arrays.ask(types, array, line)?;
        Ok(self.with_variable(over.element).with_variable(start))
    }
}
