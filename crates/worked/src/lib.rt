// The worked texts of document 01 ("Worked texts") and of change request 1, each as a single statement over one list, proved of the definitions together. No code.
#![tactic(auto)]
