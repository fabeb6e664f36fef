//! The name that options give to the service of a program, and the original_network_id that they give.

ghost use Rattle.std.specs.Prelude.{◌≡◌, option_map};
ghost use Rattle.given_values.specs.GivenNames.{network_name_view};
ghost use Rattle.job_programs.specs.GivenNames as spec;

use given_values::{NetworkName, ServiceName};

/// Returns the first name that is given to the service of a program.
#[tactic(auto, unfolding(crate::specs::GivenNames::name_given))]
pub(crate) fn name_given<'a, 'b>(
    number: u16,
    names: &'a [ServiceName<'b>],
) -> Option<&'a ServiceName<'b>>
    ensures { option_map (λ n. n.now) result ≡ spec.name_given number names.now }
{
    names.iter().find(|name| name.program == number)
}

/// Returns original_network_id, if an option gives it.
#[tactic(auto, unfolding(crate::specs::GivenNames::original_given))]
pub(crate) fn original_given(network: Option<NetworkName<'_>>) -> Option<u16>
    ensures { result ≡ spec.original_given (option_map network_name_view network.entry) }
{
    match network {
        Some(network) => network.original,
        None => None,
    }
}
