// The model check (document 01, "Model and signal").
#![tactic(auto)]

pub mod inner;

ghost use Rattle.std.specs.Prelude.{◌≡◌};
ghost use Rattle.model_check.specs.Check.{check_model};

use config::MicroPriceConfig;
use inner::ModelTable;
use refusals::Refusal;

// Refuses a model table that is not one of the configuration, at its first bad row.
pub fn check_model(config: MicroPriceConfig, model: &[u64]) -> Result<(), Refusal>
    ensures { result ≡ check_model config model.now }
{
    ModelTable::of(config, model)?.check_rows()
}
