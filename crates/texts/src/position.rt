//! What a configuration has at a position.

ghost use Rattle.std.specs.Prelude.{◌≡◌, ◌<◌, length};
ghost use Rattle.indices.specs.Positions.{components_at, architectures_at, component_at, architecture_at};

use para::Text;
use rules::Config;

/// The components of a suite.
#[tactic(auto, unfolding(indices::specs::Positions::components_at))]
pub fn components(config: &Config, suite: usize) -> &[Text]
    ensures { result.now ≡ components_at config.now suite }
{
    match config.suites().get(suite) {
        Some(suite) => suite.components.as_slice(),
        None => &[],
    }
}

/// The architectures of a suite.
#[tactic(auto, unfolding(indices::specs::Positions::architectures_at))]
pub fn architectures(config: &Config, suite: usize) -> &[Text]
    ensures { result.now ≡ architectures_at config.now suite }
{
    match config.suites().get(suite) {
        Some(suite) => suite.architectures.as_slice(),
        None => &[],
    }
}

/// The name of a suite's component.
pub fn component_name(config: &Config, suite: usize, component: usize) -> &str
    requires { component < length (components_at config.now suite) }
    ensures { result.now ≡ component_at config.now suite component }
{
    components(config, suite)[component].as_str()
}

/// The name of a suite's architecture.
pub fn architecture_name(config: &Config, suite: usize, architecture: usize) -> &str
    requires { architecture < length (architectures_at config.now suite) }
    ensures { result.now ≡ architecture_at config.now suite architecture }
{
    architectures(config, suite)[architecture].as_str()
}
