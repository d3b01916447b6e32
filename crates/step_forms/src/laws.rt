// Laws of the classes that instructions name: each function is proved, and does nothing.
ghost use Rattle.step_forms.specs.Classes.{FormsAreThere};

/// In a bundle that meets its demands, the class that the act of an instruction names is in the graph.
pub fn forms_are_there()
    ensures { FormsAreThere }
{}
