// Settings of options that aren't supported.
ghost use Rattle.std.specs.Prelude.{◌≡◌};
ghost use Rattle.vb_parse.specs.Options.{is_unsupported as is_unsupported_item};

use vb_syntax::{Item, OptionSetting, OptionSwitch};

/// Whether the item sets an option as it isn't supported.
pub fn is_unsupported(item: &Option<Item>) -> bool
    ensures { result ≡ is_unsupported_item item.now }
{
    matches!(
        item,
        Some(Item::Option(
            OptionSetting::Strict(OptionSwitch::Off)
                | OptionSetting::Explicit(OptionSwitch::Off)
                | OptionSetting::Infer(OptionSwitch::Off)
                | OptionSetting::CompareText
        ))
    )
}
