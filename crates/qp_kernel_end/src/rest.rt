//! Objects at rest.

ghost use Rattle.std.specs.Prelude.{◌≡◌, ◌==◌};
ghost use Rattle.std.specs.List.{find};
ghost use Rattle.std.specs.Option.{option_copied};

/// An object at rest: its priority, its state's number and the values of its variables, in the order of its chart.
#[derive(Drop)]
pub struct Rest {
    pub priority: u8,
    pub leaf: u8,
    pub vars: Vec<i64>,
}

/// Where the object of this priority rests, if the list tells it.
pub fn rest_at(rests: &[Rest], priority: u8) -> Option<&Rest>
    ensures { option_copied result ≡ find (λ x. x.priority == priority) rests.now }
{
    rests.iter().find(|x| x.priority == priority)
}
