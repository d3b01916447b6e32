// What holds of scripts for the heap and for the client of every text that is read and accepted.
ghost use Rattle.loaded_programs.specs.Laws.{ScriptsBeginWithGlobals, LoadedSettingsFit, CellsAreCounted};
ghost use Rattle.loaded_programs.specs.Sizes.{LoadedObjectsAreFew, LoadedObjectsAreSmall, ScriptsAreShort, GlobalsAreFew, LoadedSettingsAreModest};

use hail_load::script_is_derived;

/// The objects of the globals that a run begins with are those that a script begins with.
pub fn scripts_begin_with_globals()
    ensures { ScriptsBeginWithGlobals }
{}

/// A setting whose objects are those behind some commands, up to the first that is refused, and whose client has the entries of a script
/// that is accepted fits.
pub fn loaded_settings_fit()
    ensures { LoadedSettingsFit }
{}

/// As many cells are left behind some commands as the objects that they made did not take.
pub fn cells_are_counted()
    ensures { CellsAreCounted }
{}

/// How many objects a script makes, how many cells each of them has, and how many commands a script has. So a setting is modest that has
/// the objects of a script of 1,048,576 bytes at most, a million cells and a million steps at most.
pub fn loaded_settings_are_modest()
    ensures few { LoadedObjectsAreFew }
    ensures small { LoadedObjectsAreSmall }
    ensures short { ScriptsAreShort }
    ensures globals { GlobalsAreFew }
    ensures modest { LoadedSettingsAreModest }
{
    script_is_derived();
}
