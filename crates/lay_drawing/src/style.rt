//! The colours of a picture.

ghost use Rattle.std.specs.Prelude.{◌≡◌, ◌++◌, OnOk, string_bytes};
ghost use Rattle.lay_drawing.specs.Picture.{light, dark, style};

use crate::picture::push;
use lay_units::NoMemory;

/// Adds the style element.
pub(crate) fn push_style(text: &mut String) -> Result<(), NoMemory>
    ensures { OnOk result (string_bytes text.new ≡ string_bytes text.old ++ style) }
{
    push(text, "<style>\n")?;
    push_light(text)?;
    push_dark(text)?;
    push(text, "</style>\n")?;
    Ok(())
}

/// How kinds are painted, and what is said of them.
fn push_light(text: &mut String) -> Result<(), NoMemory>
    ensures { OnOk result (string_bytes text.new ≡ string_bytes text.old ++ light) }
{
    push(text, ".lay { background: #fff; color: #1d4ed8 }\n")?;
    push(text, ".lay rect { fill: none; stroke: currentColor }\n")?;
    push(
        text,
        ".lay .line { color: #b45309; stroke-dasharray: 4 2 }\n",
    )?;
    push(
        text,
        ".lay .text { color: #15803d; fill: currentColor; fill-opacity: 0.4; stroke-width: 0.5 }\n",
    )?;
    push(text, ".lay .label { fill: currentColor }\n")?;
    push(text, ".lay .same { color: #6b7280 }\n")?;
    push(text, ".lay .moved { color: #b45309 }\n")?;
    push(text, ".lay .resized { color: #7e22ce }\n")?;
    push(text, ".lay .new { color: #15803d }\n")?;
    push(text, ".lay .gone { color: #b91c1c }\n")?;
    push(
        text,
        ".lay .former { color: #b45309; fill-opacity: 0.1; stroke-dasharray: 1 2 }\n",
    )?;
    push(
        text,
        ".lay rect.hit { color: #be185d; fill: currentColor; fill-opacity: 0.25; stroke-width: 2 }\n",
    )?;
    Ok(())
}

/// The style of a picture where the screen is dark.
fn push_dark(text: &mut String) -> Result<(), NoMemory>
    ensures { OnOk result (string_bytes text.new ≡ string_bytes text.old ++ dark) }
{
    push(text, "@media (prefers-color-scheme: dark) {\n")?;
    push(text, ".lay { background: #0d1117; color: #79b8ff }\n")?;
    push(text, ".lay .line { color: #f0883e }\n")?;
    push(text, ".lay .text { color: #3fb950 }\n")?;
    push(text, ".lay .same { color: #8b949e }\n")?;
    push(text, ".lay .moved, .lay .former { color: #f0883e }\n")?;
    push(text, ".lay .resized { color: #c084fc }\n")?;
    push(text, ".lay .new { color: #3fb950 }\n")?;
    push(text, ".lay .gone { color: #ff7b72 }\n")?;
    push(text, ".lay rect.hit { color: #f472b6 }\n")?;
    push(text, "}\n")?;
    Ok(())
}
