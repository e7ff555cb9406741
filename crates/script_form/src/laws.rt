ghost use Rattle.script_form.specs.Laws.{ReadScriptsAreValid};

/// The script that bytes spell is valid, and holds nothing that isn't performed yet. It does nothing, and its contract is
/// this law over the definitions.
pub fn read_scripts_are_valid()
    ensures { ReadScriptsAreValid }
{}
