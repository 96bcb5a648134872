//! Laws of valid configurations and of faults.
ghost use Rattle.toml.specs.Data.{Members};
ghost use Rattle.scp_live_config.specs.Config.{IsConfigOf};
ghost use Rattle.scp_live_config.specs.Wrong.{IsWrong};
ghost use Rattle.scp_live_config.specs.Form.{OneFormOneMeaning};
ghost use Rattle.scp_live_config.specs.declared.settings.Settings.{Settings};
ghost use Rattle.scp_live_config.specs.declared.wrong.Wrong.{Wrong};

use scp_quorum::a_quorum_set_is_its_value;
use scp_quorum::below::xdr::no_spelling_begins_another;

/// If a fault holds of a document, the document is no valid configuration. So no valid configuration is refused as wrong.
pub fn what_is_wrong_says_nothing()
    ensures { (doc : Members) (s : Settings) (w : Wrong) → IsConfigOf doc s → IsWrong doc w → ⊥ }
{}

/// Configurations that differ have different forms. Two with the same form have the same node, names with ids, peers in order,
/// capacities and quorum set.
pub fn one_form_has_one_meaning()
    ensures { OneFormOneMeaning }
{
    no_spelling_begins_another();
    a_quorum_set_is_its_value();
}
