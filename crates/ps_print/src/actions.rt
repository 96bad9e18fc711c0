//! Printing actions.
ghost use Rattle.std.specs.Prelude.{◌≡◌, [], ◌++◌, codes, map, slice_index_or, OnOk};
ghost use Rattle.std.specs.List.{flat_map};
ghost use Rattle.ps_world.specs.Lines.{line_end};
ghost use Rattle.ps_world.specs.DomainTexts.{cond_text, spread_text, conditions_text, effects_text, action_lines};

use super::conditions::write_condition;
use super::declared::{write_name, write_params};
use super::effects::write_spread;
use super::expressions::write_expression;
use super::writer::Writer;
use ps_text::Names;
use ps_world::{ActionDef, Conds, Param, Spread};
use std::alloc::AllocError;

/// Adds conditions with the same time, each after a space, a parenthesis and the time.
fn write_timed_conditions(
    text: &mut Writer,
    names: &Names,
    params: &[Param],
    opening: &[u8],
    conds: &Conds,
) -> Result<(), AllocError>
    ensures { OnOk result (text.new ≡ text.old
        ++ flat_map (λ cond. opening.now ++ (cond ++ codes ")"))
        (map (cond_text names.now params.now) conds.now)) }
{
    for cond in conds.as_slice() {
        text.extend_from_slice(opening)?;
        write_condition(text, names, params, cond)?;
        text.push(b')')?;
    }
    Ok(())
}

/// Adds effects with the same time, each after a space, a parenthesis and the time.
fn write_timed_effects(
    text: &mut Writer,
    names: &Names,
    params: &[Param],
    opening: &[u8],
    effects: &[Spread],
) -> Result<(), AllocError>
    ensures { OnOk result (text.new ≡ text.old
        ++ flat_map (λ effect. opening.now ++ (effect ++ codes ")"))
        (map (spread_text names.now params.now) effects.now)) }
{
    for effect in effects {
        text.extend_from_slice(opening)?;
        write_spread(text, names, params, effect)?;
        text.push(b')')?;
    }
    Ok(())
}

/// Adds the parts of an action's condition, each after a space.
fn write_conditions_of(
    text: &mut Writer,
    names: &Names,
    action: &ActionDef,
) -> Result<(), AllocError>
    ensures { OnOk result (text.new ≡ text.old
        ++ conditions_text names.now action.now) }
{
    let params = action.params.as_slice();
    let conditions = &action.conditions;
    write_timed_conditions(text, names, params, b" (at start ", &conditions.at_start)?;
    write_timed_conditions(text, names, params, b" (over all ", &conditions.over_all)?;
    write_timed_conditions(text, names, params, b" (at end ", &conditions.at_end)?;
    Ok(())
}

/// Adds the parts of an action's effect, each after a space.
fn write_effects_of(text: &mut Writer, names: &Names, action: &ActionDef) -> Result<(), AllocError>
    ensures { OnOk result (text.new ≡ text.old ++ effects_text names.now action.now) }
{
    let params = action.params.as_slice();
    let at_start = action.effects.at_start.as_slice();
    let at_end = action.effects.at_end.as_slice();
    write_timed_effects(text, names, params, b" (at start ", at_start)?;
    write_timed_effects(text, names, params, b" (at end ", at_end)?;
    Ok(())
}

/// Adds the first line of an action, with its end.
fn write_name_line(text: &mut Writer, names: &Names, action: &ActionDef) -> Result<(), AllocError>
    ensures { OnOk result (text.new ≡ text.old
        ++ (slice_index_or (action_lines names.now action.now) 0 [] ++ line_end)) }
{
    text.extend_from_slice(b"(:durative-action ")?;
    write_name(text, names, action.name)?;
    text.push(b'\n')?;
    Ok(())
}

/// Adds the line of an action's parameters.
fn write_parameters_line(
    text: &mut Writer,
    names: &Names,
    action: &ActionDef,
) -> Result<(), AllocError>
    ensures { OnOk result (text.new ≡ text.old
        ++ (slice_index_or (action_lines names.now action.now) 1 [] ++ line_end)) }
{
    text.extend_from_slice(b":parameters (")?;
    write_params(text, names, action.params.as_slice())?;
    text.extend_from_slice(b")\n")?;
    Ok(())
}

/// Adds the line of an action's duration.
fn write_duration_line(
    text: &mut Writer,
    names: &Names,
    action: &ActionDef,
) -> Result<(), AllocError>
    ensures { OnOk result (text.new ≡ text.old
        ++ (slice_index_or (action_lines names.now action.now) 2 [] ++ line_end)) }
{
    text.extend_from_slice(b":duration (= ?duration ")?;
    write_expression(text, names, action.params.as_slice(), &action.duration)?;
    text.extend_from_slice(b")\n")?;
    Ok(())
}

/// Adds the line of an action's condition.
fn write_condition_line(
    text: &mut Writer,
    names: &Names,
    action: &ActionDef,
) -> Result<(), AllocError>
    ensures { OnOk result (text.new ≡ text.old
        ++ (slice_index_or (action_lines names.now action.now) 3 [] ++ line_end)) }
{
    text.extend_from_slice(b":condition (and")?;
    write_conditions_of(text, names, action)?;
    text.extend_from_slice(b")\n")?;
    Ok(())
}

/// Adds the line of an action's effect, which ends the action.
fn write_effect_line(text: &mut Writer, names: &Names, action: &ActionDef) -> Result<(), AllocError>
    ensures { OnOk result (text.new ≡ text.old
        ++ (slice_index_or (action_lines names.now action.now) 4 [] ++ line_end)) }
{
    text.extend_from_slice(b":effect (and")?;
    write_effects_of(text, names, action)?;
    text.extend_from_slice(b"))\n")?;
    Ok(())
}

/// Writes the five lines of an action, each with its end.
fn write_action(text: &mut Writer, names: &Names, action: &ActionDef) -> Result<(), AllocError>
    ensures { OnOk result (text.new ≡ text.old
        ++ flat_map (λ line. line ++ line_end) (action_lines names.now action.now)) }
{
    write_name_line(text, names, action)?;
    write_parameters_line(text, names, action)?;
    write_duration_line(text, names, action)?;
    write_condition_line(text, names, action)?;
    write_effect_line(text, names, action)?;
    Ok(())
}

/// Adds the lines of actions.
pub fn write_actions(
    text: &mut Writer,
    names: &Names,
    actions: &[ActionDef],
) -> Result<(), AllocError>
    ensures { OnOk result (text.new ≡ text.old
        ++ flat_map (λ line. line ++ line_end) (flat_map (action_lines names.now) actions.now)) }
{
    for action in actions {
        write_action(text, names, action)?;
    }
    Ok(())
}

/// Adds the five lines of an action, each with its end. A name that the table hasn't adds nothing.
pub fn push_action(text: &mut Vec<u8>, names: &Names, action: &ActionDef) -> Result<(), AllocError>
    ensures { OnOk result (text.new.items ≡ text.old.items
        ++ flat_map (λ line. line ++ line_end) (action_lines names.now action.now)) }
{
    let mut writer = Writer::over(text);
    let written = write_action(&mut writer, names, action);
    writer.give_back(text, written)
}
